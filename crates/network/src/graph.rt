ghost use Rattle.std.specs.Prelude.{◌≡◌, ℕ, false, ◌&&◌, OnErr};
ghost use Rattle.rules.specs.Sets.{has, inside};
ghost use Rattle.rules.specs.Links.{LawfulLinks, shared};
ghost use Rattle.rules.specs.Refusals.{Made, Connected, Disconnected};
ghost use Rattle.network.specs.Rows.{adjacent};

use crate::ends::check_ends;
use crate::network::Network;
use sets::member_set::MemberSet;
use vocabulary::refusal::Refusal;

/// The links of a network at one moment: the row of member a has those linked to a. Models read them so, and a network may keep them so.
#[derive(Clone, Copy)]
pub struct Graph {
    members: u32,
    // no `ArrayVec`: the rows are fixed memory that is copied as it is
    rows: [MemberSet; 64],
    ghost lawful: { LawfulLinks members (adjacent rows) },
}

impl Graph {
    ghost use Rattle.network.specs.Graphs.{members_of, links_of};

    /// A graph of n members without links.
    pub fn new(n: u32) -> Result<Graph, Refusal>
        ensures { Made members_of links_of n result }
    {
        if !(1..=64).contains(&n) {
            return Err(Refusal::OutOfRange);
        }
        Ok(Graph {
            members: n,
            rows: [MemberSet::empty(); 64],
        })
    }

    /// The links of any network as it stands.
    pub fn of<N: Network>(net: &N) -> Graph
        ensures members { members_of result ≡ N.Network.members net.now }
        ensures links { links_of result ≡ N.Network.links net.now }
    {
        let members = net.n();
        let mut rows = [MemberSet::empty(); 64];
        for a in MemberSet::up_to(members).members() {
            rows[(a - 1) as usize] = linked_to(net, a);
        }
        Graph { members, rows }
    }

    /// How many members there are.
    pub fn n(&self) -> u32
        ensures value { result ≡ members_of self.now }
        ensures lawful { LawfulLinks (members_of self.now) (links_of self.now) }
    {
        self.members
    }

    /// The members linked to a; nobody where a is unknown.
    pub fn neighbours(&self, a: u32) -> MemberSet
        ensures { (b : ℕ) → has result.word b ≡ links_of self.now a b }
    {
        if (1..=64).contains(&a) {
            self.rows[(a - 1) as usize]
        } else {
            MemberSet::empty()
        }
    }

    /// Whether two numbers are linked members; no for equal or unknown ones.
    pub fn linked(&self, a: u32, b: u32) -> bool
        ensures { result ≡ links_of self.now a b }
    {
        self.neighbours(a).has(b)
    }

    /// How many members of the set are linked to both a and b; 0 where one of them is unknown.
    pub fn shared(&self, a: u32, b: u32, set: MemberSet) -> u32
        ensures value { result ≡ shared (links_of self.now) a b set.word }
        ensures unknown { (inside (members_of self.now) a && inside (members_of self.now) b) ≡ false → result ≡ 0 }
    {
        self.neighbours(a)
            .intersection(self.neighbours(b))
            .intersection(set)
            .size()
    }

    /// Links two members, whether or not they were linked.
    pub fn connect(&mut self, a: u32, b: u32) -> Result<(), Refusal>
        ensures after { Connected (members_of self.old) (links_of self.old) a b (links_of self.new) result }
        ensures members { members_of self.new ≡ members_of self.old }
        ensures refused { OnErr result (self.new ≡ self.old) }
    {
        check_ends(self.members, a, b)?;
        let (i, j) = ((a - 1) as usize, (b - 1) as usize);
        self.rows[i] = self.rows[i].with(b);
        self.rows[j] = self.rows[j].with(a);
        Ok(())
    }

    /// Takes the link of two members away, if they were linked.
    // As `connect`, with `without` for `with`: a parameter for these would be longer than the lines.
    pub fn disconnect(&mut self, a: u32, b: u32) -> Result<(), Refusal>
        ensures after { Disconnected (members_of self.old) (links_of self.old) a b (links_of self.new) result }
        ensures members { members_of self.new ≡ members_of self.old }
        ensures refused { OnErr result (self.new ≡ self.old) }
    {
        check_ends(self.members, a, b)?;
        let (i, j) = ((a - 1) as usize, (b - 1) as usize);
        self.rows[i] = self.rows[i].without(b);
        self.rows[j] = self.rows[j].without(a);
        Ok(())
    }
}

/// The members linked to a.
fn linked_to<N: Network>(net: &N, a: u32) -> MemberSet
    ensures { (b : ℕ) → has result.word b ≡ N.Network.links net.now a b }
{
    let mut row = MemberSet::empty();
    // a `for`: `filter` and `fold` are no shorter
    for b in MemberSet::up_to(net.n()).members() {
        if net.linked(a, b) {
            row = row.with(b);
        }
    }
    row
}
