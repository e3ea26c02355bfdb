ghost use Rattle.rules.specs.Standings.{FirstLoose, FirstUnpaired, StandsOnly};
ghost use Rattle.network.specs.Graphs.{members_of};
ghost use Rattle.network.specs.Parts.{links_in, set_in};
ghost use Rattle.groups.specs.Searches.{FirstAbove};

use crate::model::GroupModel;
use network::induced::Induced;
use vocabulary::standing::Standing;

/// The smallest member of the set that does not fit it.
pub fn first_loose<M: GroupModel>(model: &M, part: &Induced<'_>) -> Option<u32>
    ensures { FirstLoose (links_in part.now) (M.GroupModel.meaning model.now) (set_in part.now) result }
{
    part.set.members().find(|a| !model.fits(part, *a))
}

/// The smallest member of the set, then the smallest above it, that do not pair in the set.
pub fn first_unpaired<M: GroupModel>(model: &M, part: &Induced<'_>) -> Option<(u32, u32)>
    ensures { FirstUnpaired (links_in part.now) (M.GroupModel.meaning model.now) (set_in part.now) result }
{
    // a `for`: what `find_map` ensures leaves open that it stops at a member with `None`
    for a in part.set.members() {
        if let Some(b) = first_apart(model, part, a) {
            return Some((a, b));
        }
    }
    None
}

/// The smallest member of the set above a that does not pair with a in the set.
fn first_apart<M: GroupModel>(model: &M, part: &Induced<'_>, a: u32) -> Option<u32>
    ensures { FirstAbove (links_in part.now) (M.GroupModel.meaning model.now) (set_in part.now) a result }
{
    // a copy, whose two words stay at hand from member to member
    let part = *part;
    part.set
        .above(a)
        .members()
        .find(|b| !model.pair(&part, a, *b))
}

/// How the set stands in the network under the model: a group of it, or the first thing that is wrong.
pub fn check_group<M: GroupModel>(model: &M, part: &Induced<'_>) -> Standing
    ensures { StandsOnly (members_of part.now.graph.now) (links_in part.now) (M.GroupModel.meaning model.now) (set_in part.now) result }
{
    let Induced { graph, set } = *part;
    if set.is_empty() {
        return Standing::Empty;
    }
    if let Some(a) = set.above(graph.n()).smallest() {
        return Standing::Unknown(a);
    }
    if let Some(a) = first_loose(model, part) {
        return Standing::Loose(a);
    }
    if let Some((a, b)) = first_unpaired(model, part) {
        return Standing::Apart(a, b);
    }
    Standing::Group
}
