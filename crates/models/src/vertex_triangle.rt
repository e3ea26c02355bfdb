ghost use Rattle.std.specs.Prelude.{◌≡◌};
ghost use Rattle.vocabulary.specs.declared.model_kind.ModelKind.TheVariants as kind;
ghost use Rattle.rules.specs.Models.{in_triangle, vertex_triangle};
ghost use Rattle.network.specs.Parts.{links_in, set_in};
ghost use Rattle.rules.proofs.Models.{vertex_triangle_lawful};

use crate::named_model::NamedModel;
use crate::parameter::check_parameter;
use crate::plain::Plain;
use groups::model::GroupModel;
use network::induced::Induced;
use vocabulary::model_kind::ModelKind;
use vocabulary::refusal::Refusal;

/// The vertex triangle model: a member fits when it lies in a triangle of the set, and two pair as in plain.
#[derive(Clone, Copy, Debug, PartialEq, Eq)]
pub struct VertexTriangle;

impl GroupModel for VertexTriangle {
    ghost meaning = { λ model. vertex_triangle };

    ghost lawful = { λ model. vertex_triangle_lawful };

    fn fits(&self, part: &Induced<'_>, a: u32) -> bool {
        part.set.has(a) && in_triangle(part, a)
    }

    fn pair(&self, part: &Induced<'_>, a: u32, b: u32) -> bool {
        Plain.pair(part, a, b)
    }
}

impl NamedModel for VertexTriangle {
    ghost KIND = { kind.VertexTriangle };

    const KIND: ModelKind = ModelKind::VertexTriangle;

    fn new(t: u32) -> Result<VertexTriangle, Refusal> {
        check_parameter(Self::KIND, t)?;
        Ok(VertexTriangle)
    }
}

/// Whether two members of the set are linked to a and to each other.
fn in_triangle(part: &Induced<'_>, a: u32) -> bool
    ensures { result ≡ in_triangle (links_in part.now) (set_in part.now) a }
{
    part.neighbours(a).members().any(|b| part.shared(a, b) >= 1)
}
