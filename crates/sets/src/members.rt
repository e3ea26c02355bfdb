ghost use Rattle.rules.specs.Sets.{size};
ghost use Rattle.sets.specs.Steps.{Taken};
ghost use Rattle.std.specs.Iterator.{at_most};

use crate::member_set::MemberSet;

/// The members of a set that are still to come, the smallest first.
#[derive(Clone, Copy)]
pub struct Members {
    pub rest: MemberSet,
}

impl Iterator for Members {
    type Item = u32;

    ghost next_gives = { λ s r t. Taken s.rest.word r t.rest.word };

    ghost remaining = { λ s. at_most (size s.rest.word) };

    fn next(&mut self) -> Option<u32> {
        let smallest = self.rest.smallest()?;
        self.rest = self.rest.without(smallest);
        Some(smallest)
    }
}
