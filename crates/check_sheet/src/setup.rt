ghost use Rattle.check_sheet.specs.Setups.{SetupMade};

use any_model::any_model::AnyModel;
use matrix::matrix::Matrix;
use network::network::Network;
use vocabulary::model_kind::ModelKind;
use vocabulary::refusal::Refusal;

/// A network, and the model that says what its groups are.
#[derive(Clone, Copy)]
pub struct Setup {
    pub(crate) net: Matrix,
    pub(crate) model: AnyModel,
}

impl Setup {
    /// A network of n members without links, and the model. The network's refusals are tried before the model's.
    pub(crate) fn new(n: u32, kind: ModelKind, t: u32) -> Result<Setup, Refusal>
        ensures { SetupMade n kind t result }
    {
        let net = Matrix::new(n)?;
        let model = AnyModel::new(kind, t)?;
        Ok(Setup { net, model })
    }
}
