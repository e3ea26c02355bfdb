ghost use Rattle.vocabulary.specs.declared.model_kind.ModelKind.TheVariants as kind;
ghost use Rattle.rules.specs.Models.{plain_enough};
ghost use Rattle.rules.proofs.Models.{plain_grows};

use crate::named_model::NamedModel;
use crate::parameter::check_parameter;
use groups::pair_rule::PairRule;
use vocabulary::model_kind::ModelKind;
use vocabulary::refusal::Refusal;

/// The plain model, whose groups are the 2-clubs: two members pair when linked or when they share a member of the set.
#[derive(Clone, Copy, Debug, PartialEq, Eq)]
pub struct Plain;

impl PairRule for Plain {
    ghost enough = { λ rule. plain_enough };

    ghost grows = { λ rule. plain_grows };

    fn is_enough(&self, linked: bool, shared: u32) -> bool {
        linked || shared >= 1
    }
}

impl NamedModel for Plain {
    ghost KIND = { kind.Plain };

    const KIND: ModelKind = ModelKind::Plain;

    fn new(t: u32) -> Result<Plain, Refusal> {
        check_parameter(Self::KIND, t)?;
        Ok(Plain)
    }
}
