// One visit of the list.
ghost use Rattle.std.specs.Prelude.{◌≡◌, length};
ghost use Rattle.rules.specs.Legal.{cell_right};
ghost use Rattle.problem.specs.Problem.{rules_for, Ready};
ghost use Rattle.verdict.specs.Visits.{Standing, VisitIs, FirstIs};

use crate::gates::{Point, capped, pass_gate};
use crate::sites::code_right;
use crate::wires::wire_between;
use answers::VisitFault;
use problem::Problem;
use timing::SLACK_MOST;

// Whether the cell is in the plan and, at the last visit, the source.
fn cell_right(plan: &[u8], p: Problem, last: bool, cell: usize, code: u16) -> bool
    requires { Ready p plan.now }
    ensures { result ≡ cell_right (rules_for p plan.now) last (record { cell = cell; code = code }) }
{
    cell < plan.len() && (!last || cell == p.source)
}

// A visit after the first, from the point before it.
pub fn judge_visit(
    plan: &[u8],
    p: Problem,
    from: Point,
    last: bool,
    cell: usize,
    code: u16,
) -> Result<Point, VisitFault>
    requires { Ready p plan.now × Standing p (length plan.now) from }
    ensures { VisitIs p plan.now from last (record { cell = cell; code = code }) result }
{
    if !cell_right(plan, p, last, cell, code) {
        return Err(VisitFault::Cell);
    }
    let wire = wire_between(plan, p, from.cell, cell).ok_or(VisitFault::Wire)?;
    if !code_right(plan, p, last, cell, code) {
        return Err(VisitFault::Site);
    }
    let load = from.load.plus(wire.load());
    let delay = capped(from.delay.plus(wire.delay(from.load)));
    let at = Point {
        cell,
        load,
        delay,
        slack: from.slack,
    };
    pass_gate(p.elements, at, last, code)
}

// The first visit: the sink.
pub fn judge_first(plan: &[u8], p: Problem, cell: usize, code: u16) -> Result<Point, VisitFault>
    requires { Ready p plan.now }
    ensures { FirstIs p plan.now (record { cell = cell; code = code }) result }
{
    if cell != p.sink {
        return Err(VisitFault::Cell);
    }
    if code != 7 {
        return Err(VisitFault::Site);
    }
    let load = p.elements.register.load();
    if !load.at_most(p.elements.limit) {
        return Err(VisitFault::Load);
    }
    let delay = p.elements.register.start_delay();
    Ok(Point {
        cell,
        load,
        delay,
        slack: SLACK_MOST,
    })
}
