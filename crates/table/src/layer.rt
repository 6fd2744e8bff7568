// One layer: what the arrival rows of the active cells give to their neighbours.
// It is made in place: no wire joins two active cells, so none of their rows changes.
ghost use Rattle.std.specs.Prelude.{◌+◌, ◌*◌, ◌≤◌, ◌<◌, length};
ghost use Rattle.costs.specs.Costs.{CostsOf};
ghost use Rattle.problem.specs.Net.{fifo_of};
ghost use Rattle.layout.specs.Layout.{active_at, trail_at};
ghost use Rattle.lists.specs.Lists.{Listed};
ghost use Rattle.trail.specs.Trail.{Sound};
ghost use Rattle.table.specs.Problem.{NetReady, Room, net_rules};
ghost use Rattle.table.specs.Colours.{Unlinked};
ghost use Rattle.table.specs.Layer.{FlagsCleared, Layered};

use crate::pushes::{Grown, spread_all};
use costs::COSTS;
use layout::{ACTIVE, LISTED};
use lists::take_list;
use problem::Net;
use trail::Trail;

// The flags of the active cells are cleared.
pub fn clear_flags(scratch: &mut [u16], n: usize, active: usize)
    requires { (n ≤ 1024) × ((n * trail_at ≤ length scratch.old) × Listed n scratch.old (n * active_at) active) }
    ensures { FlagsCleared n scratch.old scratch.new }
{
    for i in 0..active {
        let cell = scratch[n * ACTIVE + i] as usize;
        scratch[n * LISTED + cell] = 0;
    }
}

// One layer, where a span closes with a delay below `top`. The new active list has every cell whose row grew; its count, and the trail with these rows.
// Where a cell is missing on the active list, only the rows of its neighbours may stay too low.
pub fn next_layer(
    plan: &[u8],
    scratch: &mut [u16],
    net: Net,
    top: u16,
    costs: &[u16; COSTS],
    active: usize,
    trail: Trail,
) -> Grown
    requires { NetReady net plan.now × (Room (length plan.now) scratch.old × (Listed (length plan.now) scratch.old (length plan.now * active_at) active × (Sound (length plan.now) scratch.old trail × (Unlinked (net_rules net plan.now) (length plan.now) scratch.old × CostsOf net.problem.elements (fifo_of net) costs.now)))) }
    ensures { Layered (net_rules net plan.now) (length plan.now) top trail scratch.old scratch.new result }
{
    let n = plan.len();
    clear_flags(scratch, n, active);
    let next = spread_all(plan, scratch, net, top, costs, active, trail);
    take_list(scratch, n, next.count);
    next
}
