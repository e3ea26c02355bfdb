ghost use Rattle.std.specs.Prelude.{◌≤◌};
ghost use Rattle.vocabulary.specs.declared.model_kind.ModelKind.TheVariants as kind;
ghost use Rattle.rules.specs.Models.{hereditary_enough};
ghost use Rattle.rules.proofs.Models.{hereditary_grows};

use crate::named_model::NamedModel;
use crate::parameter::check_parameter;
use groups::pair_rule::PairRule;
use vocabulary::model_kind::ModelKind;
use vocabulary::refusal::Refusal;

/// The hereditary model, whose groups stay 2-clubs whoever leaves, up to t members: two members pair when linked or when they share more than t members of the set.
#[derive(Clone, Copy, Debug, PartialEq, Eq)]
pub struct Hereditary {
    t: u32,
    ghost few: { t ≤ 63 },
}

impl PairRule for Hereditary {
    ghost enough = { λ rule. hereditary_enough rule.t };

    ghost grows = { λ rule. hereditary_grows rule.t };

    fn is_enough(&self, linked: bool, shared: u32) -> bool {
        linked || shared >= self.t + 1
    }
}

impl NamedModel for Hereditary {
    ghost KIND = { kind.Hereditary };

    const KIND: ModelKind = ModelKind::Hereditary;

    fn new(t: u32) -> Result<Hereditary, Refusal> {
        check_parameter(Self::KIND, t)?;
        Ok(Hereditary { t })
    }
}
