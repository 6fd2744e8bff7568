// A span comes to a cell: it passes, a buffer drives it there, or it closes.
ghost use Rattle.std.specs.Prelude.{◌≡◌, true, length, get_or};
ghost use Rattle.timing.specs.Formulas.{register_load, setup_delay};
ghost use Rattle.problem.specs.Problem.{rules_for};
ghost use Rattle.table.specs.ArrivalRow.{takes_buffers};
ghost use Rattle.delays.specs.Delays.{Eased};
ghost use Rattle.spans.specs.Eases.{Eases};
ghost use Rattle.spans.specs.Arrive.{StartAsks, ArriveAsks, BuffersIn, ShutAsks, ShutIn, Arrived};

use delays::{LATEST, ease};
use labels::may_register;
use layout::{CLOSES, HINT};
use problem::Problem;
use table::takes_buffers;
use timing::{HalfTicks, Load};

// A span starts at a register on the cell.
pub fn start(scratch: &mut [u16], n: usize, p: Problem, cell: usize, count: usize) -> usize
    requires { StartAsks p n scratch.old count cell }
    ensures { Eased n p.elements.limit.0 cell (register_load p.elements.register) (setup_delay p.elements.register) scratch.old count scratch.new result }
{
    let limit = p.elements.limit.0 as usize;
    let load = p.elements.register.load().0 as usize;
    let delay = p.elements.register.start_delay().0 as u16;
    ease(scratch, n, limit, cell, load, delay, count)
}

// Each buffer drives the span that has come.
fn ease_buffers(
    plan: &[u8],
    scratch: &mut [u16],
    p: Problem,
    period: u16,
    cell: usize,
    load: Load,
    delay: HalfTicks,
    count: usize,
) -> usize
    requires { ArriveAsks p plan.now period scratch.old count cell load.0 delay.0 × (takes_buffers (get_or plan.now cell 0) p cell ≡ true) }
    ensures { Eases p plan.now period scratch.old count scratch.new result × BuffersIn p.elements scratch.new cell load.0 delay.0 p.elements.count }
{
    let n = plan.len();
    let limit = p.elements.limit.0 as usize;
    let mut waiting = count;
    for i in 0..p.elements.count {
        let buffer = p.elements.buffers[i];
        let own = buffer.load().0 as usize;
        let after = buffer.driver().after(load, delay).0;
        if own <= limit && after <= LATEST {
            waiting = ease(scratch, n, limit, cell, own, after as u16, waiting);
        }
    }
    waiting
}

// The span closes at the cell with this delay, the skew in it. At the source the route ends; elsewhere the next span starts there, once the period allows it.
fn shut(
    plan: &[u8],
    scratch: &mut [u16],
    p: Problem,
    period: u16,
    cell: usize,
    closing: u32,
    count: usize,
) -> usize
    requires { ShutAsks p plan.now period scratch.old count cell closing }
    ensures { Eases p plan.now period scratch.old count scratch.new result × ShutIn (length plan.now) scratch.new cell closing }
{
    let n = plan.len();
    if LATEST < closing {
        return count;
    }
    let close = closing as u16;
    if scratch[n * CLOSES + cell] <= close {
        return count;
    }
    scratch[n * CLOSES + cell] = close;
    if 2 * period < close {
        if close < scratch[n * HINT] {
            scratch[n * HINT] = close;
        }
        return count;
    }
    if cell == p.source {
        return count;
    }
    start(scratch, n, p, cell, count)
}

// All that a span can do that comes to the cell with this load and delay.
pub fn arrive(
    plan: &[u8],
    scratch: &mut [u16],
    p: Problem,
    period: u16,
    cell: usize,
    load: Load,
    delay: HalfTicks,
    count: usize,
) -> usize
    requires { ArriveAsks p plan.now period scratch.old count cell load.0 delay.0 }
    ensures { Eases p plan.now period scratch.old count scratch.new result × Arrived (rules_for p plan.now) (length plan.now) scratch.new cell load.0 delay.0 }
{
    let n = plan.len();
    let limit = p.elements.limit.0 as usize;
    let mut waiting = ease(
        scratch,
        n,
        limit,
        cell,
        load.0 as usize,
        delay.0 as u16,
        count,
    );
    if takes_buffers(plan[cell], p, cell) {
        waiting = ease_buffers(plan, scratch, p, period, cell, load, delay, waiting);
    }
    if cell != p.source && !may_register(plan, p, cell) {
        return waiting;
    }
    let closing = p.elements.register.closing(p.elements.skew, load, delay).0;
    shut(plan, scratch, p, period, cell, closing, waiting)
}
