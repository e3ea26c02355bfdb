ghost use Rattle.std.specs.Prelude.{◌≡◌, Some, decimal};
ghost use Rattle.vocabulary.specs.Refusals.{refusal_number};

use std::error::Error;
use std::fmt;

/// Why a call was turned down. A call that answers one has changed nothing.
#[derive(Clone, Copy, Debug, PartialEq, Eq)]
pub enum Refusal {
    /// a number outside its range: a member that the network does not have, or a size that no network has
    OutOfRange,
    /// one member named as both ends of a link
    SameMember,
    AlreadyLinked,
    NotLinked,
    /// the network holds as many links as its kind has room for
    NoRoom,
    /// a sheet that names nobody, or somebody twice
    BadSheet,
    /// a parameter that the model does not take
    BadParameter,
}

// The number by which users know the refusal.
impl From<Refusal> for u8 {
    ghost from_gives = { λ refusal number. number ≡ refusal_number refusal };

    fn from(refusal: Refusal) -> u8 {
        match refusal {
            Refusal::OutOfRange => 1,
            Refusal::SameMember => 2,
            Refusal::AlreadyLinked => 4,
            Refusal::NotLinked => 5,
            Refusal::NoRoom => 6,
            Refusal::BadSheet => 9,
            Refusal::BadParameter => 10,
        }
    }
}

// Users read the number alone.
impl fmt::Display for Refusal {
    ghost output = { λ refusal. Some (decimal (refusal_number refusal)) };

    fn fmt<W: fmt::Write>(&self, f: &mut fmt::Formatter<W>) -> fmt::Result {
        write!(f, "{}", u8::from(*self))
    }
}

impl Error for Refusal {}
