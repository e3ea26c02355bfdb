ghost use Rattle.network.specs.Graphs.{members_of};
ghost use Rattle.groups.specs.Sheets.{SheetRead, SheetJudged};

use crate::model::GroupModel;
use crate::standing::check_group;
use network::graph::Graph;
use network::network::Network;
use sets::member_set::MemberSet;
use vocabulary::refusal::Refusal;
use vocabulary::standing::Standing;

/// The set of members that a sheet names, one number each in any order.
pub fn read_sheet(graph: &Graph, sheet: &[u8]) -> Result<MemberSet, Refusal>
    ensures { SheetRead (members_of graph.now) sheet.now result }
{
    if sheet.is_empty() {
        return Err(Refusal::BadSheet);
    }
    let n = graph.n();
    let mut named = MemberSet::empty();
    // a `for`: `try_fold` would carry the same tests and errors in a closure
    for number in sheet {
        let a = u32::from(*number);
        if !(1..=n).contains(&a) {
            return Err(Refusal::OutOfRange);
        }
        if named.has(a) {
            return Err(Refusal::BadSheet);
        }
        named = named.with(a);
    }
    Ok(named)
}

/// How the sheet's set stands in the network as it is now.
pub fn judge_sheet<N: Network, M: GroupModel>(
    net: &N,
    model: &M,
    sheet: &[u8],
) -> Result<Standing, Refusal>
    ensures { SheetJudged (N.Network.members net.now) (N.Network.links net.now) (M.GroupModel.meaning model.now) sheet.now result }
{
    let graph = Graph::of(net);
    let set = read_sheet(&graph, sheet)?;
    Ok(check_group(model, &graph.induced(set)))
}
