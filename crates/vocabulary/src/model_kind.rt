ghost use Rattle.std.specs.Prelude.{◌++◌, Some, codes, decimal};
ghost use Rattle.vocabulary.specs.ModelKinds.{NamesModel};

use std::error::Error;
use std::fmt;

/// The models of groups, by name.
#[derive(Clone, Copy, Debug, PartialEq, Eq)]
pub enum ModelKind {
    Plain,
    Robust,
    Hereditary,
    VertexTriangle,
    EdgeTriangle,
}

/// A letter that names no model.
#[derive(Clone, Copy, Debug, PartialEq, Eq)]
pub struct UnknownLetter(pub u8);

// The model that a letter names.
impl TryFrom<u8> for ModelKind {
    type Error = UnknownLetter;

    ghost try_from_gives = { NamesModel };

    fn try_from(letter: u8) -> Result<ModelKind, UnknownLetter> {
        match letter {
            b'P' => Ok(ModelKind::Plain),
            b'R' => Ok(ModelKind::Robust),
            b'H' => Ok(ModelKind::Hereditary),
            b'V' => Ok(ModelKind::VertexTriangle),
            b'E' => Ok(ModelKind::EdgeTriangle),
            _ => Err(UnknownLetter(letter)),
        }
    }
}

impl fmt::Display for UnknownLetter {
    ghost output = { λ unknown. Some (codes "no model has the byte " ++ decimal unknown.0) };

    fn fmt<W: fmt::Write>(&self, f: &mut fmt::Formatter<W>) -> fmt::Result {
        write!(f, "no model has the byte {}", self.0)
    }
}

impl Error for UnknownLetter {}
