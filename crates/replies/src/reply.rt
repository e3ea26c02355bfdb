ghost use Rattle.std.specs.Prelude.{Some};
ghost use Rattle.replies.specs.Texts.{reply_text};

use std::fmt;
use vocabulary::refusal::Refusal;
use vocabulary::standing::Standing;

/// What is replied to one line.
// No `Result`: the four are printed and counted alike, and no two of them are an `Ok`.
#[derive(Clone, Copy, Debug, PartialEq, Eq)]
pub enum Reply {
    Done,
    Refused(Refusal),
    Judged(Standing),
    Unreadable,
}

impl fmt::Display for Reply {
    ghost output = { λ reply. Some (reply_text reply) };

    fn fmt<W: fmt::Write>(&self, f: &mut fmt::Formatter<W>) -> fmt::Result {
        match self {
            Reply::Done => write!(f, "ok"),
            Reply::Refused(refusal) => write!(f, "no {refusal}"),
            Reply::Judged(standing) => write!(f, "{standing}"),
            Reply::Unreadable => write!(f, "?"),
        }
    }
}
