ghost use Rattle.std.specs.Prelude.{◌≡◌};
ghost use Rattle.rules.specs.Links.{link_count};
ghost use Rattle.network.specs.Graphs as graphs;

use network::ends::check_ends;
use network::graph::Graph;
use network::network::Network;
use vocabulary::refusal::Refusal;

/// The links as rows of sets, and their number.
#[derive(Clone, Copy)]
pub struct Matrix {
    graph: Graph,
    count: u32,
    ghost counted: { count ≡ link_count (graphs.members_of graph) (graphs.links_of graph) },
}

impl Network for Matrix {
    ghost use Rattle.rules.proofs.Links.{count_few};
    ghost use Rattle.matrix.specs.Matrices.{members_of, links_of, room, NeverFull};

    ghost ROOM = { room };

    const ROOM: u32 = 2016;

    ghost members = { members_of };

    ghost links = { links_of };

    ghost lawful = { λ m. m.graph.lawful };

    ghost held = { λ m. count_few (members_of m) (links_of m) m.graph.lawful.few };

    fn new(n: u32) -> Result<Matrix, Refusal> {
        Ok(Matrix {
            graph: Graph::new(n)?,
            count: 0,
        })
    }

    fn n(&self) -> u32 {
        self.graph.n()
    }

    #[tactic(auto, using(crate::proofs::Counts::never_full))]
    fn most_links(&self) -> u32
        ensures value { result ≡ 2016 }
        ensures never_full { NeverFull }
    {
        Self::ROOM
    }

    fn linked(&self, a: u32, b: u32) -> bool {
        self.graph.linked(a, b)
    }

    fn link(&mut self, a: u32, b: u32) -> Result<(), Refusal> {
        check_ends(self.graph.n(), a, b)?;
        if self.linked(a, b) {
            return Err(Refusal::AlreadyLinked);
        }
        if self.count >= Self::ROOM {
            return Err(Refusal::NoRoom);
        }
        self.graph.connect(a, b)?;
        self.count += 1;
        Ok(())
    }

    fn unlink(&mut self, a: u32, b: u32) -> Result<(), Refusal> {
        check_ends(self.graph.n(), a, b)?;
        if !self.linked(a, b) {
            return Err(Refusal::NotLinked);
        }
        self.graph.disconnect(a, b)?;
        self.count -= 1;
        Ok(())
    }
}
