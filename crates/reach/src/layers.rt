// The layers of a span, had back from the trail or made again.
ghost use Rattle.std.specs.Prelude.{◌<◌, ◌≡◌, length};
ghost use Rattle.table.specs.Problem.{net_rules};
ghost use Rattle.reach.specs.Reach.{no_layers, held_by, LoadAsks, Loaded};

use crate::cone::{drop_outside, in_cone};
use crate::span::{next_both, start_span};
use costs::COSTS;
use labels::{arrive_both, no_idle};
use problem::Net;
use table::next_layer;
use trail::{Trail, new_trail, rewind, stamped};

// What one call of `load_layer` leaves for the next, beside the words: the table is that of `steps` steps in the span on this side with this weight to go after it.
// The span was run at the cell `from`, of a plan of this width, with `most` steps: its layers are right in that cone.
#[derive(Clone, Copy)]
pub struct Layers {
    pub side: usize,
    pub weight: u32,
    pub steps: u32,
    pub width: usize,
    pub from: usize,
    pub most: u32,
    pub trail: Trail,
}

// Before the first call: nothing can be had back.
pub fn no_layers() -> Layers
    ensures { result ≡ no_layers }
{
    Layers {
        side: 0,
        weight: 0,
        steps: 0,
        width: 1,
        from: 0,
        most: 0,
        trail: Trail {
            room: 0,
            start: 0,
            count: 0,
            low: 1,
            stamp: 1,
        },
    }
}

// The rows next to the cell can be had back from the trail.
fn held_by(layers: Layers, side: usize, cell: usize, weight: u32, steps: u32) -> bool
    requires { 0 < layers.width }
    ensures { result ≡ held_by layers side cell weight steps }
{
    layers.side == side
        && layers.weight == weight
        && layers.trail.low <= steps
        && steps <= layers.steps
        && in_cone(
            layers.width,
            layers.from,
            layers.most as usize,
            steps as usize,
            cell,
        )
}

// The layers of the span, from no steps on, in the cone of the cell.
// With no active cell a layer changes nothing, so u goes on to the next label of either set.
fn run_span(
    plan: &[u8],
    scratch: &mut [u16],
    net: Net,
    costs: &[u16; COSTS],
    side: usize,
    count: usize,
    exits: usize,
    cell: usize,
    weight: u32,
    steps: u32,
    layers: Layers,
) -> Layers
    requires { LoadAsks net plan.now costs.now side count exits scratch.old layers }
    ensures { Loaded (net_rules net plan.now) (length plan.now) side count exits cell weight steps scratch.old scratch.new result }
{
    let n = plan.len();
    let p = net.problem;
    let top = 2 * net.period(side) + 1;
    let span = start_span(plan, scratch, net, count, exits, weight, layers);
    let mut u: u32 = 0;
    let mut at = span.at;
    let mut exit = span.exit;
    let mut active = span.active;
    let mut trail = new_trail(n);
    while u < steps {
        if active == 0 {
            u = next_both(scratch, n, at, count, exit, exits, weight, steps);
        } else {
            let grown = next_layer(
                plan,
                scratch,
                net,
                top,
                costs,
                active,
                stamped(trail, u + 1),
            );
            active = grown.count;
            trail = grown.trail;
            u += 1;
        }
        let next = arrive_both(
            scratch,
            n,
            at,
            count,
            exit,
            exits,
            weight,
            u,
            active,
            no_idle(),
        );
        at = next.at;
        exit = next.exit;
        active = drop_outside(scratch, n, next.active, p, cell, steps, u);
    }
    Layers {
        side,
        weight,
        steps,
        width: p.width,
        from: cell,
        most: steps,
        trail,
    }
}

// The table of this span, on this side, with `steps` steps to go, in the rows next to the cell.
pub fn load_layer(
    plan: &[u8],
    scratch: &mut [u16],
    net: Net,
    costs: &[u16; COSTS],
    side: usize,
    count: usize,
    exits: usize,
    cell: usize,
    weight: u32,
    steps: u32,
    layers: Layers,
) -> Layers
    requires { LoadAsks net plan.now costs.now side count exits scratch.old layers }
    ensures { Loaded (net_rules net plan.now) (length plan.now) side count exits cell weight steps scratch.old scratch.new result }
{
    if held_by(layers, side, cell, weight, steps) {
        let trail = rewind(scratch, plan.len(), layers.trail, steps);
        Layers {
            side,
            weight,
            steps,
            trail,
            ..layers
        }
    } else {
        run_span(
            plan, scratch, net, costs, side, count, exits, cell, weight, steps, layers,
        )
    }
}
