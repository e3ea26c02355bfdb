ghost use Rattle.std.specs.Prelude.{Some};
ghost use Rattle.vocabulary.specs.Standings.{standing_text};

use std::fmt;

/// How a set stands in a network under a model: the first of these that is true of it.
// No `Result`: that a set is no group is an answer, and nobody passes it on as an error.
#[derive(Clone, Copy, Debug, PartialEq, Eq)]
pub enum Standing {
    Empty,
    /// the smallest member of the set that is none of the network
    Unknown(u32),
    /// the smallest member that does not fit the set
    Loose(u32),
    /// the smallest member, then the smallest above it, that do not pair in the set
    Apart(u32, u32),
    Group,
}

impl fmt::Display for Standing {
    ghost output = { λ standing. Some (standing_text standing) };

    fn fmt<W: fmt::Write>(&self, f: &mut fmt::Formatter<W>) -> fmt::Result {
        match self {
            Standing::Empty => write!(f, "empty"),
            Standing::Unknown(a) => write!(f, "unknown {a}"),
            Standing::Loose(a) => write!(f, "loose {a}"),
            Standing::Apart(a, b) => write!(f, "apart {a} {b}"),
            Standing::Group => write!(f, "group"),
        }
    }
}
