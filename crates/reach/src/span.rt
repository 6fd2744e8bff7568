// The start of a span: no budget, and the seeds that need no steps.
ghost use Rattle.std.specs.Prelude.{◌*◌, ◌≤◌, length};
ghost use Rattle.layout.specs.Layout.{cell_words};
ghost use Rattle.table.specs.Problem.{net_rules};
ghost use Rattle.reach.specs.Reach.{OrderIn, ExitsIn, BothIn, FirstWith, FirstExit, NextSteps, NextBoth, Past, TableCleared, Cleared, Started, SpanAsks};

use crate::layers::Layers;
use labels::{BothArrivals, arrive_both, no_idle, steps_of, weight_word};
use layout::{ARRIVAL, EXITS, LABELS, LISTED, ORDER, TRAIL};
use problem::Net;
use rows::clear;
use trail::rewind;

// The first place of the order, up to `count`, whose label has at least this weight.
fn first_with(scratch: &[u16], n: usize, set: usize, count: usize, weight: u32) -> usize
    requires { OrderIn n set scratch.now count }
    ensures { FirstWith n set scratch.now count weight result }
{
    let mut low = 0;
    let mut high = count;
    while low < high {
        let mid = (low + high) / 2;
        let cell = scratch[set + n * ORDER + mid] as usize;
        if weight < weight_word(scratch, n, set, cell) {
            high = mid;
        } else {
            low = mid + 1;
        }
    }
    low
}

// So in the order of the FIFOs, where there are labels of them.
fn first_exit(scratch: &[u16], n: usize, exits: usize, weight: u32) -> usize
    requires { ExitsIn n scratch.now exits }
    ensures { FirstExit n scratch.now exits weight result }
{
    if 0 < exits {
        first_with(scratch, n, n * EXITS, exits, weight)
    } else {
        0
    }
}

// The steps of the label at `at`, if that is one of this weight; at most `steps`.
fn next_steps(
    scratch: &[u16],
    n: usize,
    set: usize,
    at: usize,
    count: usize,
    weight: u32,
    steps: u32,
) -> u32
    requires { OrderIn n set scratch.now count }
    ensures { NextSteps n set scratch.now at count weight steps result }
{
    if at < count {
        let cell = scratch[set + n * ORDER + at] as usize;
        if weight_word(scratch, n, set, cell) - 1 == weight {
            return steps_of(scratch, n, set, cell).min(steps);
        }
    }
    steps
}

// The steps of the first label of either set that waits, if that is one of this weight; at most `steps`.
pub fn next_both(
    scratch: &[u16],
    n: usize,
    at: usize,
    count: usize,
    exit: usize,
    exits: usize,
    weight: u32,
    steps: u32,
) -> u32
    requires { BothIn n scratch.now count exits }
    ensures { NextBoth n scratch.now at count exit exits weight steps result }
{
    let first = next_steps(scratch, n, n * LABELS, at, count, weight, steps);
    if exit < exits {
        next_steps(scratch, n, n * EXITS, exit, exits, weight, first)
    } else {
        first
    }
}

// The table becomes 0: on the trail, if that goes back to layer 0.
fn clear_table(scratch: &mut [u16], n: usize, layers: Layers)
    requires { Past n scratch.old layers.steps layers.trail × ((n ≤ 1024) × (n * cell_words ≤ length scratch.old)) }
    ensures { TableCleared n scratch.old scratch.new }
{
    if layers.trail.low == 0 {
        rewind(scratch, n, layers.trail, 0);
    } else {
        clear(scratch, 0, n * ARRIVAL);
    }
}

// The table, the flags and the seed flags become 0.
fn clear_span(scratch: &mut [u16], n: usize, layers: Layers)
    requires { Past n scratch.old layers.steps layers.trail × ((n ≤ 1024) × (n * cell_words ≤ length scratch.old)) }
    ensures { Cleared n scratch.old scratch.new }
{
    clear_table(scratch, n, layers);
    clear(scratch, n * LISTED, n * TRAIL);
}

// The table of no steps, and the seeds that need none after the close: where the labels of both sets wait that come later, and the count of the active list.
pub fn start_span(
    plan: &[u8],
    scratch: &mut [u16],
    net: Net,
    count: usize,
    exits: usize,
    weight: u32,
    layers: Layers,
) -> BothArrivals
    requires { SpanAsks net plan.now count exits scratch.old layers }
    ensures { Started (net_rules net plan.now) (length plan.now) weight scratch.old scratch.new result.active result.at count result.exit exits }
{
    let n = plan.len();
    clear_span(scratch, n, layers);
    let at = first_with(scratch, n, n * LABELS, count, weight);
    let exit = first_exit(scratch, n, exits, weight);
    arrive_both(scratch, n, at, count, exit, exits, weight, 0, 0, no_idle())
}
