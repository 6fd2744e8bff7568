// A visit's gate: load and period, and what it leaves.
ghost use Rattle.std.specs.Prelude.{false, ◌≤◌};
ghost use Rattle.rules.specs.Rules.{register_code};
ghost use Rattle.verdict.specs.Gates.{CloseAsks, GateAsks, GateIs, ClosedIs};

use answers::VisitFault;
use timing::{Elements, smaller_slack};

mod point;

pub use point::{Point, capped};

// The period test at a register or the source, and a new span.
fn closed(elements: Elements, at: Point) -> Result<Point, VisitFault>
    requires { CloseAsks elements at }
    ensures { ClosedIs elements at result }
{
    let close = elements.slack(at.load, at.delay);
    if close < 0 {
        return Err(VisitFault::Period(close));
    }
    Ok(Point {
        cell: at.cell,
        load: elements.register.load(),
        delay: elements.register.start_delay(),
        slack: smaller_slack(at.slack, close),
    })
}

// A register, or the source: "the source only the load before".
fn close_span(elements: Elements, at: Point, last: bool) -> Result<Point, VisitFault>
    requires { CloseAsks elements at }
    ensures { GateIs elements at last register_code result }
{
    if !last && !elements.register.load().at_most(elements.limit) {
        return Err(VisitFault::Load);
    }
    closed(elements, at)
}

// A buffer.
fn drive(elements: Elements, at: Point, code: u16) -> Result<Point, VisitFault>
    requires { CloseAsks elements at × ((1 ≤ code) × (code ≤ elements.count)) }
    ensures { GateIs elements at false code result }
{
    let buffer = elements.buffers[code as usize - 1];
    let load = buffer.load();
    if !load.at_most(elements.limit) {
        return Err(VisitFault::Load);
    }
    let delay = capped(buffer.driver().after(at.load, at.delay));
    Ok(Point {
        cell: at.cell,
        load,
        delay,
        slack: at.slack,
    })
}

// The tests of load and period at a visit whose code is right, and the point after its gate. `at` is the point before it. The codes are document 01's, which `GateIs` is about.
pub fn pass_gate(elements: Elements, at: Point, last: bool, code: u16) -> Result<Point, VisitFault>
    requires { GateAsks elements at last code }
    ensures { GateIs elements at last code result }
{
    if !at.load.at_most(elements.limit) {
        return Err(VisitFault::Load);
    }
    match code {
        0 => Ok(at),
        7 => close_span(elements, at, last),
        _ => drive(elements, at, code),
    }
}
