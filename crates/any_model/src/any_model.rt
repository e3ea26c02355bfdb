ghost use Rattle.rules.specs.Kinds.{ModelMade};
ghost use Rattle.any_model.specs.AnyModels.{meaning_of};
ghost use Rattle.any_model.specs.declared.any_model.AnyModel.TheVariants as model;
ghost use Rattle.rules.proofs.Models.{by_count_lawful, plain_grows, robust_grows, hereditary_grows, edge_triangle_grows, vertex_triangle_lawful};

use groups::model::GroupModel;
use models::edge_triangle::EdgeTriangle;
use models::hereditary::Hereditary;
use models::named_model::NamedModel;
use models::plain::Plain;
use models::robust::Robust;
use models::vertex_triangle::VertexTriangle;
use network::induced::Induced;
use vocabulary::model_kind::ModelKind;
use vocabulary::refusal::Refusal;

/// One of the models, where which one is known only when the program runs.
#[derive(Clone, Copy, Debug, PartialEq, Eq)]
pub enum AnyModel {
    Plain(Plain),
    Robust(Robust),
    Hereditary(Hereditary),
    VertexTriangle(VertexTriangle),
    EdgeTriangle(EdgeTriangle),
}

impl AnyModel {
    /// The model of that kind with the parameter t.
    pub fn new(kind: ModelKind, t: u32) -> Result<AnyModel, Refusal>
        ensures { ModelMade ⟦<AnyModel as GroupModel>⟧.meaning kind t result }
    {
        let model = match kind {
            ModelKind::Plain => AnyModel::Plain(Plain::new(t)?),
            ModelKind::Robust => AnyModel::Robust(Robust::new(t)?),
            ModelKind::Hereditary => AnyModel::Hereditary(Hereditary::new(t)?),
            ModelKind::VertexTriangle => AnyModel::VertexTriangle(VertexTriangle::new(t)?),
            ModelKind::EdgeTriangle => AnyModel::EdgeTriangle(EdgeTriangle::new(t)?),
        };
        Ok(model)
    }
}

impl GroupModel for AnyModel {
    ghost meaning = { meaning_of };

    ghost lawful = { elim [
      | model.Plain m ↦ by_count_lawful _ plain_grows
      | model.Robust m ↦ by_count_lawful _ (robust_grows m.t)
      | model.Hereditary m ↦ by_count_lawful _ (hereditary_grows m.t)
      | model.VertexTriangle m ↦ vertex_triangle_lawful
      | model.EdgeTriangle m ↦ by_count_lawful _ edge_triangle_grows
    ] };

    // Five arms for each question: a function that hands out a `dyn` is refused, and one that makes it here gets no proof.
    fn fits(&self, part: &Induced<'_>, a: u32) -> bool {
        match *self {
            AnyModel::Plain(model) => model.fits(part, a),
            AnyModel::Robust(model) => model.fits(part, a),
            AnyModel::Hereditary(model) => model.fits(part, a),
            AnyModel::VertexTriangle(model) => model.fits(part, a),
            AnyModel::EdgeTriangle(model) => model.fits(part, a),
        }
    }

    fn pair(&self, part: &Induced<'_>, a: u32, b: u32) -> bool {
        match *self {
            AnyModel::Plain(model) => model.pair(part, a, b),
            AnyModel::Robust(model) => model.pair(part, a, b),
            AnyModel::Hereditary(model) => model.pair(part, a, b),
            AnyModel::VertexTriangle(model) => model.pair(part, a, b),
            AnyModel::EdgeTriangle(model) => model.pair(part, a, b),
        }
    }
}
