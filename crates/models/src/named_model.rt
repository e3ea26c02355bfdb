ghost use Rattle.vocabulary.specs.declared.model_kind.ModelKind.{ModelKind};
ghost use Rattle.rules.specs.Kinds.{ModelMade};

use groups::model::GroupModel;
use vocabulary::model_kind::ModelKind;
use vocabulary::refusal::Refusal;

/// A model that has a name, and is made from its parameter.
pub trait NamedModel: GroupModel + Sized {
    ghost KIND: { ModelKind };

    const KIND: ModelKind;

    /// The model with the parameter t, if it takes it.
    fn new(t: u32) -> Result<Self, Refusal>
        ensures { ModelMade Self.meaning KIND t result };
}
