// A state goes on to the neighbours of its cell.
ghost use Rattle.std.specs.Prelude.{length};
ghost use Rattle.problem.specs.Problem.{rules_for};
ghost use Rattle.spans.specs.Eases.{Eases};
ghost use Rattle.spans.specs.Spread.{StepAsks, Stepped, SpreadAsks, SpreadOut};

use crate::arrivals::arrive;
use costs::ROW;
use delays::LATEST;
use plan::neighbours_of;
use problem::Problem;
use timing::{HalfTicks, Load, Wire};

// To one neighbour, from a cell with this load and delay. The number of cells is none.
fn step(
    plan: &[u8],
    scratch: &mut [u16],
    p: Problem,
    period: u16,
    cell: usize,
    load: Load,
    delay: HalfTicks,
    to: usize,
    wire: Wire,
    count: usize,
) -> usize
    requires { StepAsks p plan.now period scratch.old count cell load.0 delay.0 to wire }
    ensures { Eases p plan.now period scratch.old count scratch.new result × Stepped (rules_for p plan.now) (length plan.now) scratch.new cell load.0 delay.0 to }
{
    if to == plan.len() {
        return count;
    }
    let heavier = load.plus(wire.load());
    if !heavier.at_most(p.elements.limit) {
        return count;
    }
    let later = delay.plus(wire.delay(load));
    if LATEST < later.0 {
        return count;
    }
    arrive(plan, scratch, p, period, to, heavier, later, count)
}

// To the four neighbours. Nothing is done where a lighter state of the cell is as early: what that one leads to is no worse.
pub fn spread(
    plan: &[u8],
    scratch: &mut [u16],
    p: Problem,
    period: u16,
    state: usize,
    count: usize,
) -> usize
    requires { SpreadAsks p plan.now period scratch.old count state }
    ensures { Eases p plan.now period scratch.old count scratch.new result × SpreadOut (rules_for p plan.now) (length plan.now) state scratch.old scratch.new }
{
    let cell = state / ROW;
    let load = state % ROW;
    let delay = scratch[state];
    if 0 < load && scratch[state - 1] <= delay {
        return count;
    }
    let near = neighbours_of(plan, p.width, p.height, cell);
    let l = Load(load as u16);
    let d = HalfTicks(delay as u32);
    let a = step(
        plan,
        scratch,
        p,
        period,
        cell,
        l,
        d,
        near.up,
        p.elements.vertical,
        count,
    );
    let b = step(
        plan,
        scratch,
        p,
        period,
        cell,
        l,
        d,
        near.left,
        p.elements.horizontal,
        a,
    );
    let c = step(
        plan,
        scratch,
        p,
        period,
        cell,
        l,
        d,
        near.right,
        p.elements.horizontal,
        b,
    );
    step(
        plan,
        scratch,
        p,
        period,
        cell,
        l,
        d,
        near.down,
        p.elements.vertical,
        c,
    )
}
