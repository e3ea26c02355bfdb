ghost use Rattle.vocabulary.specs.declared.model_kind.ModelKind.TheVariants as kind;
ghost use Rattle.rules.specs.Models.{edge_triangle_enough};
ghost use Rattle.rules.proofs.Models.{edge_triangle_grows};

use crate::named_model::NamedModel;
use crate::parameter::check_parameter;
use groups::pair_rule::PairRule;
use vocabulary::model_kind::ModelKind;
use vocabulary::refusal::Refusal;

/// The edge triangle model: two members pair when they share a member of the set, linked or not. So every link of a group lies in a triangle.
#[derive(Clone, Copy, Debug, PartialEq, Eq)]
pub struct EdgeTriangle;

impl PairRule for EdgeTriangle {
    ghost enough = { λ rule. edge_triangle_enough };

    ghost grows = { λ rule. edge_triangle_grows };

    fn is_enough(&self, linked: bool, shared: u32) -> bool {
        shared >= 1
    }
}

impl NamedModel for EdgeTriangle {
    ghost KIND = { kind.EdgeTriangle };

    const KIND: ModelKind = ModelKind::EdgeTriangle;

    fn new(t: u32) -> Result<EdgeTriangle, Refusal> {
        check_parameter(Self::KIND, t)?;
        Ok(EdgeTriangle)
    }
}
