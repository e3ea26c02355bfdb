ghost use Rattle.std.specs.Prelude.{◌≤◌};
ghost use Rattle.vocabulary.specs.declared.model_kind.ModelKind.TheVariants as kind;
ghost use Rattle.rules.specs.Models.{robust_enough};
ghost use Rattle.rules.proofs.Models.{robust_grows};

use crate::named_model::NamedModel;
use crate::parameter::check_parameter;
use groups::pair_rule::PairRule;
use vocabulary::model_kind::ModelKind;
use vocabulary::refusal::Refusal;

/// The robust model: two members pair when t paths of at most two links join them that share nothing but their ends. A link is one such path, each shared member another.
#[derive(Clone, Copy, Debug, PartialEq, Eq)]
pub struct Robust {
    t: u32,
    ghost some: { 1 ≤ t },
}

impl PairRule for Robust {
    ghost enough = { λ rule. robust_enough rule.t };

    ghost grows = { λ rule. robust_grows rule.t };

    fn is_enough(&self, linked: bool, shared: u32) -> bool {
        (linked && shared >= self.t - 1) || shared >= self.t
    }
}

impl NamedModel for Robust {
    ghost KIND = { kind.Robust };

    const KIND: ModelKind = ModelKind::Robust;

    fn new(t: u32) -> Result<Robust, Refusal> {
        check_parameter(Self::KIND, t)?;
        Ok(Robust { t })
    }
}
