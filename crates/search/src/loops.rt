// The search of one side: on the sink's side the least weight and steps from the sink, or that there is no route.
ghost use Rattle.std.specs.Prelude.{◌≡◌, ◌*◌, ◌<◌, ◌≤◌, length};
ghost use Rattle.costs.specs.Costs.{CostsOf};
ghost use Rattle.layout.specs.Layout.{trail_at};
ghost use Rattle.problem.specs.Net.{fifo_of};
ghost use Rattle.table.specs.Problem.{NetReady, Room, net_rules};
ghost use Rattle.search.specs.Search.{Blank, SideAsks, Sourced, SearchEffect};

use crate::idle::idle_gates;
use crate::turns::{Progress, Reached, take_turn};
use costs::COSTS;
use labels::{arrive_both, label};
use layout::LABELS;
use problem::Net;
use std::ops::ControlFlow;

// The source is labelled, if this is its side. The count of labels.
fn label_source(scratch: &mut [u16], n: usize, side: usize, fifos: usize, source: usize) -> usize
    requires { Blank n scratch.old × ((n ≤ 1024) × ((n * trail_at ≤ length scratch.old) × (source < n))) }
    ensures { Sourced n side fifos source scratch.old scratch.new result }
{
    if side == fifos {
        label(scratch, n, n * LABELS, source, 0, 0, 0);
        1
    } else {
        0
    }
}

// The table, the labels, the lists and the flags start as zeros. So many FIFOs lead on from this side, and their labels stand.
pub fn search(
    plan: &[u8],
    scratch: &mut [u16],
    net: Net,
    costs: &[u16; COSTS],
    side: usize,
    exits: usize,
) -> Reached
    requires { NetReady net plan.now × (Room (length plan.now) scratch.old × (Blank (length plan.now) scratch.old × (SideAsks (net_rules net plan.now) (length plan.now) side exits scratch.old × CostsOf net.problem.elements (fifo_of net) costs.now))) }
    ensures { SearchEffect (net_rules net plan.now) (length plan.now) side exits scratch.old scratch.new result }
{
    let n = plan.len();
    let count = label_source(scratch, n, side, net.clocks.fifos, net.problem.source);
    let idle = idle_gates(net, costs, exits);
    let a = arrive_both(scratch, n, 0, count, 0, exits, 0, 0, 0, idle);
    let mut f = Progress {
        weight: 0,
        steps: 0,
        active: a.active,
        at: a.at,
        count,
        exit: a.exit,
        watched: 0,
    };
    loop {
        match take_turn(plan, scratch, net, costs, side, exits, f) {
            ControlFlow::Break(reached) => return reached,
            ControlFlow::Continue(g) => {
                let b = arrive_both(
                    scratch, n, g.at, g.count, g.exit, exits, g.weight, g.steps, g.active, idle,
                );
                f = Progress {
                    active: b.active,
                    at: b.at,
                    exit: b.exit,
                    ..g
                };
            }
        }
    }
}
