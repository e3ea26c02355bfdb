ghost use Rattle.std.specs.Prelude.{◌≡◌, ℕ, Bool};
ghost use Rattle.rules.specs.Models.{by_count, Grows};
ghost use Rattle.rules.proofs.Models.{by_count_lawful};

use crate::model::GroupModel;
use network::induced::Induced;

/// A rule by which two members of a set pair, from whether they are linked and how many members of the set they share.
pub trait PairRule {
    ghost enough: { Self → Bool → ℕ → Bool };

    /// Whether two members pair.
    fn is_enough(&self, linked: bool, shared: u32) -> bool
        ensures { result ≡ enough self.now linked shared };

    ghost grows: { (rule : Self) → Grows (enough rule) };
}

// The model of such a rule: each member fits.
impl<R: PairRule> GroupModel for R {
    ghost meaning = { λ rule. by_count (R.enough rule) };

    ghost lawful = { λ rule. by_count_lawful (R.enough rule) (R.grows rule) };

    fn fits(&self, part: &Induced<'_>, a: u32) -> bool {
        part.set.has(a)
    }

    fn pair(&self, part: &Induced<'_>, a: u32, b: u32) -> bool {
        part.set.has_two(a, b) && self.is_enough(part.graph.linked(a, b), part.shared(a, b))
    }
}
