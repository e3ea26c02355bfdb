ghost use Rattle.std.specs.Prelude.{◌≡◌, ℕ, not, ◌&&◌, ◌||◌, ◌==◌, nat_lt};
ghost use Rattle.rules.specs.Sets.{Tells, differs, inside, has, two_of, EmptySet, Within, SetOf, Leaves, size, Smallest, SameMembers, SizeLaws};
ghost use Rattle.rules.specs.Order.{Better, Beats, OrderLaws};
ghost use Rattle.sets.specs.Words.{word_of};

use crate::members::Members;

/// A set of members 1 to 64: member a stands at the binary digit a - 1 of the word.
// Contracts read the word: with an `impl Model` a struct or an option that holds a set would be moved where it is copied now.
#[derive(Clone, Copy, PartialEq, Eq, Debug)]
pub struct MemberSet {
    word: u64,
}

impl MemberSet {
    #[tactic(auto, using(rules::proofs::Digits::nobody))]
    pub fn empty() -> MemberSet
        ensures { EmptySet result.word }
    {
        MemberSet { word: 0 }
    }

    /// All members 1 to n, or 1 to 64 where n is larger.
    #[tactic(auto, using(rules::proofs::Digits::has_up_to))]
    pub fn up_to(n: u32) -> MemberSet
        ensures { (a : ℕ) → has result.word a ≡ (inside n a && inside 64 a) }
    {
        if n == 0 {
            return MemberSet::empty();
        }
        MemberSet {
            word: u64::MAX >> (64 - n.min(64)),
        }
    }

    /// No number outside 1 to 64 is in any set.
    #[tactic(auto, using(rules::proofs::Members::has_digit, rules::proofs::Members::word_set, rules::proofs::Members::same_members))]
    pub fn has(self, a: u32) -> bool
        ensures value { result ≡ has self.word a }
        ensures numbers { SetOf 64 self.word }
        ensures same { SameMembers }
    {
        self.word & digit(a) != 0
    }

    /// Whether a and b are two different members.
    pub fn has_two(self, a: u32, b: u32) -> bool
        ensures { result ≡ two_of self.word a b }
    {
        self.has(a) && self.has(b) && a != b
    }

    /// The set and a; the set itself where a is no number of a member.
    #[tactic(auto, using(rules::proofs::Digits::has_or))]
    pub fn with(self, a: u32) -> MemberSet
        ensures { (b : ℕ) → has result.word b ≡ ((b == a && inside 64 a) || has self.word b) }
    {
        MemberSet {
            word: self.word | digit(a),
        }
    }

    #[tactic(auto, using(rules::proofs::Digits::has_except, rules::proofs::Members::word_set))]
    pub fn without(self, a: u32) -> MemberSet
        ensures { Leaves self.word a result.word }
    {
        MemberSet {
            word: self.word & !digit(a),
        }
    }

    #[tactic(auto, using(rules::proofs::Digits::has_and))]
    pub fn intersection(self, other: MemberSet) -> MemberSet
        ensures { (a : ℕ) → has result.word a ≡ (has self.word a && has other.word a) }
    {
        MemberSet {
            word: self.word & other.word,
        }
    }

    #[tactic(auto, using(rules::proofs::Digits::has_except))]
    pub fn difference(self, other: MemberSet) -> MemberSet
        ensures { (a : ℕ) → has result.word a ≡ (has self.word a && not (has other.word a)) }
    {
        MemberSet {
            word: self.word & !other.word,
        }
    }

    /// The members numbered above a.
    #[tactic(auto, using(rules::proofs::Members::word_set))]
    pub fn above(self, a: u32) -> MemberSet
        ensures { (b : ℕ) → has result.word b ≡ (has self.word b && nat_lt a b) }
    {
        self.difference(MemberSet::up_to(a))
    }

    /// The members of one of the two and not of both.
    #[tactic(auto, using(rules::proofs::Digits::has_xor))]
    pub fn symmetric_difference(self, other: MemberSet) -> MemberSet
        ensures { (a : ℕ) → has result.word a ≡ differs (has self.word a) (has other.word a) }
    {
        MemberSet {
            word: self.word ^ other.word,
        }
    }

    #[tactic(auto, using(rules::proofs::Members::empty_tells))]
    pub fn is_empty(self) -> bool
        ensures { Tells result (EmptySet self.word) }
    {
        self.word == 0
    }

    #[tactic(auto, using(rules::proofs::Members::subset_tells))]
    pub fn is_subset(self, other: MemberSet) -> bool
        ensures { Tells result (Within self.word other.word) }
    {
        self.difference(other).is_empty()
    }

    #[tactic(auto, using(rules::proofs::Tallies::tally_ones, rules::proofs::Members::size_laws))]
    pub fn size(self) -> u32
        ensures value { result ≡ size self.word }
        ensures laws { SizeLaws }
    {
        self.word.count_ones()
    }

    pub fn smallest(self) -> Option<u32>
        ensures { Smallest self.word result }
    {
        if self.is_empty() {
            return None;
        }
        Some(self.word.trailing_zeros() + 1)
    }

    /// The members one by one, in ascending order.
    pub fn members(self) -> Members
        ensures { result.rest ≡ self }
    {
        Members { rest: self }
    }

    /// Whether the set has more members, or as many and the smallest member in which the two differ.
    // No `Ord`: `a > b` would read as the order of Rust's own sets, which is that of lists.
    #[tactic(auto, using(rules::proofs::Order::order_laws, rules::proofs::Order::first_decides))]
    pub fn is_better_than(self, other: MemberSet) -> bool
        ensures value { Tells result (Better self.word other.word) }
        ensures laws { OrderLaws }
    {
        let size = self.size();
        let other_size = other.size();
        if size != other_size {
            return size > other_size;
        }
        self.symmetric_difference(other)
            .smallest()
            .is_some_and(|first| self.has(first))
    }

    /// Whether the set is better than the best so far; with none so far, whether it has a member.
    #[tactic(auto, using(rules::proofs::Members::some_tells))]
    pub fn beats(self, best: Option<MemberSet>) -> bool
        ensures { Tells result (Beats self.word (word_of best)) }
    {
        match best {
            Some(best) => self.is_better_than(best),
            None => !self.is_empty(),
        }
    }
}

/// The word with the digit of the member a alone; 0 where a is no number of a member.
#[tactic(auto, using(rules::proofs::Digits::has_one, rules::proofs::Digits::nobody))]
fn digit(a: u32) -> u64
    ensures { (b : ℕ) → has result b ≡ (b == a && inside 64 a) }
{
    if (1..=64).contains(&a) {
        1 << (a - 1)
    } else {
        0
    }
}
