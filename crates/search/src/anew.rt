// The search of a side on scratch words whose table, labels, lists and flags hold anything.
ghost use Rattle.std.specs.Prelude.{length};
ghost use Rattle.costs.specs.Costs.{CostsOf};
ghost use Rattle.problem.specs.Net.{fifo_of};
ghost use Rattle.table.specs.Problem.{NetReady, Room, net_rules};
ghost use Rattle.search.specs.Search.{SideAsks, SearchEffect};

use crate::loops::search;
use crate::turns::Reached;
use costs::COSTS;
use layout::{ARRIVAL, LABELS, TRAIL};
use problem::Net;
use rows::clear;

pub fn search_anew(
    plan: &[u8],
    scratch: &mut [u16],
    net: Net,
    costs: &[u16; COSTS],
    side: usize,
    exits: usize,
) -> Reached
    requires { NetReady net plan.now × (Room (length plan.now) scratch.old × (SideAsks (net_rules net plan.now) (length plan.now) side exits scratch.old × CostsOf net.problem.elements (fifo_of net) costs.now)) }
    ensures { SearchEffect (net_rules net plan.now) (length plan.now) side exits scratch.old scratch.new result }
{
    let n = plan.len();
    clear(scratch, 0, n * ARRIVAL);
    clear(scratch, n * LABELS, n * TRAIL);
    search(plan, scratch, net, costs, side, exits)
}
