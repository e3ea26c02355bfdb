ghost use Rattle.std.specs.Prelude.{◌≡◌, ℕ, ◌&&◌};
ghost use Rattle.rules.specs.Sets.{has, SetOf};
ghost use Rattle.rules.specs.Links.{shared};
ghost use Rattle.network.specs.Graphs.{links_of};

use crate::graph::Graph;
use sets::member_set::MemberSet;

/// The subgraph that a set of members induces: these members, and the links among them.
#[derive(Clone, Copy)]
pub struct Induced<'g> {
    pub graph: &'g Graph,
    pub set: MemberSet,
    ghost numbers: { SetOf 64 set.word },
}

impl Graph {
    /// The subgraph that the set induces.
    #[tactic(auto, using(rules::proofs::Members::word_set))]
    pub fn induced(&self, set: MemberSet) -> Induced<'_>
        ensures graph { result.graph.now ≡ self.now }
        ensures set { result.set ≡ set }
    {
        Induced { graph: self, set }
    }
}

impl Induced<'_> {
    /// The members of the set that are linked to a.
    pub fn neighbours(&self, a: u32) -> MemberSet
        ensures { (b : ℕ) → has result.word b ≡ (links_of self.now.graph.now a b && has self.now.set.word b) }
    {
        self.graph.neighbours(a).intersection(self.set)
    }

    /// How many members of the set are linked to both a and b.
    pub fn shared(&self, a: u32, b: u32) -> u32
        ensures { result ≡ shared (links_of self.now.graph.now) a b self.now.set.word }
    {
        self.graph.shared(a, b, self.set)
    }
}
