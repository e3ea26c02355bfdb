ghost use Rattle.std.specs.Prelude.{◌≡◌, Some};
ghost use Rattle.replies.specs.Summaries.{nothing_yet, more, noted, summary_text};

use crate::reply::Reply;
use std::fmt;
use vocabulary::standing::Standing;

/// How often each kind of reply was given.
#[derive(Clone, Copy, Debug, PartialEq, Eq)]
pub struct Summary {
    groups: u64,
    others: u64,
    refused: u64,
    unreadable: u64,
}

impl Summary {
    pub fn new() -> Summary
        ensures { result ≡ nothing_yet }
    {
        Summary {
            groups: 0,
            others: 0,
            refused: 0,
            unreadable: 0,
        }
    }

    /// Counts one reply.
    pub fn note(&mut self, reply: Reply)
        ensures { self.new ≡ noted reply self.old }
    {
        match reply {
            Reply::Done => {}
            Reply::Judged(Standing::Group) => one_more(&mut self.groups),
            Reply::Judged(_) => one_more(&mut self.others),
            Reply::Refused(_) => one_more(&mut self.refused),
            Reply::Unreadable => one_more(&mut self.unreadable),
        }
    }
}

/// Counts one up; a count that is as high as it can be stays there.
fn one_more(count: &mut u64)
    ensures { count.new ≡ more count.old }
{
    *count = count.saturating_add(1);
}

impl fmt::Display for Summary {
    ghost output = { λ summary. Some (summary_text summary) };

    fn fmt<W: fmt::Write>(&self, f: &mut fmt::Formatter<W>) -> fmt::Result {
        write!(
            f,
            "{} groups, {} other sets, {} refused, {} unreadable",
            self.groups, self.others, self.refused, self.unreadable
        )
    }
}
