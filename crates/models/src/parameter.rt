ghost use Rattle.rules.specs.Kinds.{parameter_refusal};
ghost use Rattle.rules.specs.Refusals.{Checks};

use vocabulary::model_kind::ModelKind;
use vocabulary::refusal::Refusal;

/// Whether the model of that name takes the parameter t: the number of paths, from 1 to 64, or of members that may leave, up to 63; the others take 0 only.
pub(crate) fn check_parameter(kind: ModelKind, t: u32) -> Result<(), Refusal>
    ensures { Checks (parameter_refusal kind t) result }
{
    let in_range = match kind {
        ModelKind::Robust => (1..=64).contains(&t),
        ModelKind::Hereditary => t <= 63,
        ModelKind::Plain | ModelKind::VertexTriangle | ModelKind::EdgeTriangle => t == 0,
    };
    if in_range {
        Ok(())
    } else {
        Err(Refusal::BadParameter)
    }
}
