// One step of emission: from a state, the first visit in written order from which the rest can still be done.
#![tactic(auto)]

ghost use Rattle.std.specs.Prelude.{◌≡◌, ◌+◌, ◌*◌, ◌-◌, ◌≤◌, ◌<◌, T, length};
ghost use Rattle.timing.specs.Ranges.{load_max};
ghost use Rattle.rules.specs.Rules.{is_closing, side_after};
ghost use Rattle.budget.specs.Emission.{exact_seed};
ghost use Rattle.costs.specs.Costs.{row_words};
ghost use Rattle.rows.specs.Rows.{view_of};
ghost use Rattle.labels.specs.Labels.{SetIn, labels_of, labels_for};
ghost use Rattle.table.specs.Problem.{net_rules, budget_of};
ghost use Rattle.choice.specs.Choice.{sides_most, ChooseAsks, ChosenAmong, Chosen};
ghost use Rattle.choice.specs.Codes.{RowAsks, SeedAsks, CodeAsks, LeaveAsks, TryAsks, seed_in, goes_at, FirstCode, FirstBuffer, drives, Left};

use labels::{steps_of, weight_word};
use layout::{EXITS, LABELS};
use plan::neighbours_of;
use problem::Net;
use rows::view;
use table::takes_buffers;
use timing::{Elements, HalfTicks, Load, Wire, smaller_slack};

// After a visit's gate: the delay of the current span, the weight to go after it, the steps to go, the smallest spare figure of the spans closed so far, and the side: the FIFOs passed.
#[derive(Clone, Copy)]
pub struct State {
    pub cell: usize,
    pub load: Load,
    pub delay: HalfTicks,
    pub weight: u32,
    pub steps: u32,
    pub slack: i32,
    pub side: usize,
}

// A visit's code, and the state after it.
#[derive(Clone, Copy)]
pub struct Visit {
    pub code: u16,
    pub state: State,
}

// The table's word for a cell and a load: what a delay there is below.
fn budget_at(scratch: &[u16], cell: usize, load: Load) -> HalfTicks
    requires { (load.0 ≤ load_max) × (cell * 64 + row_words ≤ length scratch.now) }
    ensures { result.0 ≡ view_of scratch.now cell load.0 }
{
    HalfTicks(view(scratch, cell, load.0 as usize) as u32)
}

// Whether the state after buffer i at the cell is in the table.
fn buffer_drives(scratch: &[u16], elements: Elements, at: State, i: usize) -> bool
    requires { RowAsks elements scratch.now at × (i < elements.count) }
    ensures { result ≡ drives scratch.now elements at i }
{
    let buffer = elements.buffers[i];
    let own = buffer.load();
    own.at_most(elements.limit)
        && buffer
            .driver()
            .after(at.load, at.delay)
            .below(budget_at(scratch, at.cell, own))
}

// The first buffer whose state is in the table.
fn first_buffer(scratch: &[u16], elements: Elements, at: State) -> Option<usize>
    requires { RowAsks elements scratch.now at }
    ensures { FirstBuffer scratch.now elements at result }
{
    (0..elements.count).find(|i| buffer_drives(scratch, elements, at, *i))
}

// Whether the cell's label in this set has the weight to go, and no more than the steps to go.
fn is_seed(scratch: &[u16], n: usize, set: usize, at: State) -> bool
    requires { SetIn n set scratch.now × (at.cell < n) }
    ensures { result ≡ seed_in (labels_of n set scratch.now) at }
{
    let word = weight_word(scratch, n, set, at.cell);
    word != 0 && word - 1 == at.weight && steps_of(scratch, n, set, at.cell) <= at.steps
}

// Whether the span may close at the cell with this code, by the labels of such gates: of registers, or of so many FIFOs.
fn may_close(scratch: &[u16], n: usize, exits: usize, at: State, code: u16) -> bool
    requires { SeedAsks n exits scratch.now at × T (is_closing code) }
    ensures { result ≡ exact_seed (labels_for n exits scratch.now) at.weight at.steps code at.cell }
{
    if code == 7 {
        is_seed(scratch, n, n * LABELS, at)
    } else {
        exits != 0 && is_seed(scratch, n, n * EXITS, at)
    }
}

// Whether a visit to the cell with this code closes the span in time and goes on.
fn closes(plan: &[u8], scratch: &[u16], net: Net, exits: usize, at: State, code: u16) -> bool
    requires { CodeAsks net plan.now exits scratch.now at × T (is_closing code) }
    ensures { result ≡ goes_at (net_rules net plan.now) (labels_for (length plan.now) exits scratch.now) (budget_of (length plan.now) scratch.now) at code }
{
    if !may_close(scratch, plan.len(), exits, at, code) {
        return false;
    }
    let closer = net.gate(code);
    let skew = net.problem.elements.skew;
    0 <= closer.slack(net.period(at.side), skew, at.load, at.delay)
}

// The first code with which a visit to the cell goes on.
fn first_code(plan: &[u8], scratch: &[u16], net: Net, exits: usize, at: State) -> Option<u16>
    requires { CodeAsks net plan.now exits scratch.now at }
    ensures { FirstCode (net_rules net plan.now) (labels_for (length plan.now) exits scratch.now) (budget_of (length plan.now) scratch.now) at result }
{
    if at.delay.below(budget_at(scratch, at.cell, at.load)) {
        return Some(0);
    }
    if takes_buffers(plan[at.cell], net.problem, at.cell)
        && let Some(i) = first_buffer(scratch, net.problem.elements, at)
    {
        return Some((i + 1) as u16);
    }
    if closes(plan, scratch, net, exits, at, 7) {
        Some(7)
    } else if closes(plan, scratch, net, exits, at, 8) {
        Some(8)
    } else {
        None
    }
}

// The state after the gate.
fn leave(net: Net, at: State, code: u16) -> State
    requires { LeaveAsks net at code }
    ensures { Left net at code result }
{
    match code {
        0 => at,
        1..=6 => {
            let buffer = net.problem.elements.buffers[(code - 1) as usize];
            State {
                load: buffer.load(),
                delay: buffer.driver().after(at.load, at.delay),
                ..at
            }
        }
        _ => {
            let gate = net.gate(code);
            let skew = net.problem.elements.skew;
            let close = gate.slack(net.period(at.side), skew, at.load, at.delay);
            let side = side_after(at.side, code);
            State {
                load: gate.load(),
                delay: gate.start_delay(),
                weight: at.weight.saturating_sub(net.weight(side)),
                slack: smaller_slack(at.slack, close),
                side,
                ..at
            }
        }
    }
}

// The FIFOs passed, after a gate with this code.
fn side_after(side: usize, code: u16) -> usize
    requires { side ≤ sides_most }
    ensures { result ≡ side_after side code }
{
    if code == 8 { side + 1 } else { side }
}

// The first visit to the neighbour that goes on. The number of cells is no neighbour.
fn try_cell(
    plan: &[u8],
    scratch: &[u16],
    net: Net,
    exits: usize,
    from: State,
    cell: usize,
    wire: Wire,
) -> Option<Visit>
    requires { TryAsks net plan.now exits scratch.now from cell wire }
    ensures { ChosenAmong (net_rules net plan.now) (length plan.now) (labels_for (length plan.now) exits scratch.now) (budget_of (length plan.now) scratch.now) from (λ c. c ≡ cell) result }
{
    if cell == plan.len() {
        return None;
    }
    let load = from.load.plus(wire.load());
    if !load.at_most(net.problem.elements.limit) {
        return None;
    }
    let at = State {
        cell,
        load,
        delay: from.delay.plus(wire.delay(from.load)),
        steps: from.steps - 1,
        ..from
    };
    let code = first_code(plan, scratch, net, exits, at)?;
    let state = leave(net, at, code);
    Some(Visit { code, state })
}

// The first visit that goes on: the neighbours in ascending order. There are labels of so many FIFOs.
pub fn choose(plan: &[u8], scratch: &[u16], net: Net, exits: usize, from: State) -> Option<Visit>
    requires { ChooseAsks net plan.now exits scratch.now from }
    ensures { Chosen (net_rules net plan.now) (length plan.now) (labels_for (length plan.now) exits scratch.now) (budget_of (length plan.now) scratch.now) from result }
{
    let near = neighbours_of(plan, net.problem.width, net.problem.height, from.cell);
    let Elements {
        horizontal,
        vertical,
        ..
    } = net.problem.elements;
    // Tried as a chain of `or_else`: what the closures return is not found among the facts of the return.
    if let Some(visit) = try_cell(plan, scratch, net, exits, from, near.up, vertical) {
        return Some(visit);
    }
    if let Some(visit) = try_cell(plan, scratch, net, exits, from, near.left, horizontal) {
        return Some(visit);
    }
    if let Some(visit) = try_cell(plan, scratch, net, exits, from, near.right, horizontal) {
        return Some(visit);
    }
    try_cell(plan, scratch, net, exits, from, near.down, vertical)
}
