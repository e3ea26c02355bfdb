ghost use Rattle.std.specs.Prelude.{◌≡◌, ℕ, ◌≤◌, OnErr};
ghost use Rattle.rules.specs.Links.{Links, LawfulLinks, link_count};
ghost use Rattle.rules.specs.Refusals.{Made, AfterLink, AfterUnlink, Freed};

use vocabulary::refusal::Refusal;

/// A network: some members, numbered from 1, and the links between them. Its meaning is its set of links.
pub trait Network: Sized {
    // the most links that a network of this kind holds
    ghost ROOM: { ℕ };

    const ROOM: u32;

    // how many members it has
    ghost members: { Self → ℕ };

    // which of them are linked
    ghost links: { Self → Links };

    /// A network of n members without links.
    fn new(n: u32) -> Result<Self, Refusal>
        ensures { Made members links n result };

    /// How many members there are.
    fn n(&self) -> u32
        ensures { result ≡ members self.now };

    /// The most links that a network of this kind holds.
    fn most_links(&self) -> u32
        ensures { result ≡ ROOM };

    /// Whether two numbers are linked members; no for equal or unknown ones.
    fn linked(&self, a: u32, b: u32) -> bool
        ensures { result ≡ links self.now a b };

    /// Adds one link.
    fn link(&mut self, a: u32, b: u32) -> Result<(), Refusal>
        ensures after { AfterLink (members self.old) ROOM (links self.old) a b (links self.new) result }
        ensures members { members self.new ≡ members self.old }
        ensures refused { OnErr result (self.new ≡ self.old) };

    /// Takes one link away.
    fn unlink(&mut self, a: u32, b: u32) -> Result<(), Refusal>
        ensures after { AfterUnlink (members self.old) (links self.old) a b (links self.new) result }
        ensures members { members self.new ≡ members self.old }
        ensures freed { Freed (members self.old) ROOM (links self.new) result }
        ensures refused { OnErr result (self.new ≡ self.old) };

    ghost lawful: { (net : Self) → LawfulLinks (members net) (links net) };

    ghost held: { (net : Self) → link_count (members net) (links net) ≤ ROOM };
}
