// What the active cells give to their neighbours.
ghost use Rattle.std.specs.Prelude.{◌+◌, ◌*◌, ◌<◌, length};
ghost use Rattle.table.specs.Problem.{net_rules};
ghost use Rattle.trail.specs.Trail.{TrailAsks};
ghost use Rattle.table.specs.Layer.{NotedRow, Offered, OfferAsks, Spread, SpreadAsks, SpreadAll, SpreadAllAsks};

use crate::arrival::fill_arrival;
use costs::{COSTS, HORIZONTAL, ROW, VERTICAL};
use layout::{ACTIVE, ARRIVAL, LISTED, NEXT};
use lists::enlist;
use plan::neighbours_of;
use problem::Net;
use rows::{grows, push_row};
use trail::{Trail, save};

// The count of the next list, and the trail.
#[derive(Clone, Copy)]
pub struct Grown {
    pub count: usize,
    pub trail: Trail,
}

// The cell's row is saved, unless the cell is listed: then this layer has done so.
fn note(scratch: &mut [u16], n: usize, cell: usize, trail: Trail) -> Trail
    requires { TrailAsks n scratch.old trail × (cell < n) }
    ensures { NotedRow n cell scratch.old trail scratch.new result }
{
    if scratch[n * LISTED + cell] == 1 {
        trail
    } else {
        save(scratch, n, cell, trail)
    }
}

// One neighbour takes what the arrival row gives, if its row grows by it, and is then listed. The number n is no neighbour.
// The costs of the step are at `base`.
fn offer(
    scratch: &mut [u16],
    n: usize,
    to: usize,
    costs: &[u16; COSTS],
    base: usize,
    step: usize,
    next: Grown,
) -> Grown
    requires { OfferAsks n to costs.now base step next scratch.old }
    ensures { Offered n to costs.now base step next.trail scratch.old scratch.new result }
{
    let from = n * ARRIVAL;
    if to == n || !grows(scratch, from, to * ROW, costs, base, step) {
        return next;
    }
    let trail = note(scratch, n, to, next.trail);
    push_row(scratch, from, to * ROW, costs, base, step);
    let count = enlist(scratch, n, n * NEXT, next.count, to);
    Grown { count, trail }
}

// The arrival row of the cell is made, and its four neighbours take what it gives.
fn spread(
    plan: &[u8],
    scratch: &mut [u16],
    net: Net,
    top: u16,
    costs: &[u16; COSTS],
    cell: usize,
    next: Grown,
) -> Grown
    requires { SpreadAsks net plan.now costs.now cell next scratch.old }
    ensures { Spread (net_rules net plan.now) (length plan.now) top cell next.trail scratch.old scratch.new result }
{
    let n = plan.len();
    fill_arrival(plan, scratch, net, top, costs, cell);
    let near = neighbours_of(plan, net.problem.width, net.problem.height, cell);
    let horizontal = net.problem.elements.horizontal.load().0 as usize;
    let vertical = net.problem.elements.vertical.load().0 as usize;
    let a = offer(scratch, n, near.up, costs, VERTICAL, vertical, next);
    let b = offer(scratch, n, near.left, costs, HORIZONTAL, horizontal, a);
    let c = offer(scratch, n, near.right, costs, HORIZONTAL, horizontal, b);
    offer(scratch, n, near.down, costs, VERTICAL, vertical, c)
}

// The neighbours of the active cells take what these give.
pub fn spread_all(
    plan: &[u8],
    scratch: &mut [u16],
    net: Net,
    top: u16,
    costs: &[u16; COSTS],
    active: usize,
    trail: Trail,
) -> Grown
    requires { SpreadAllAsks net plan.now costs.now active trail scratch.old }
    ensures { SpreadAll (net_rules net plan.now) (length plan.now) top active trail scratch.old scratch.new result }
{
    let n = plan.len();
    let mut next = Grown { count: 0, trail };
    for i in 0..active {
        let cell = scratch[n * ACTIVE + i] as usize;
        next = spread(plan, scratch, net, top, costs, cell, next);
    }
    next
}
