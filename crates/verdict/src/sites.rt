// Which code a visit may have.
ghost use Rattle.std.specs.Prelude.{◌≡◌, ◌<◌, length};
ghost use Rattle.rules.specs.Legal.{may_stand, code_right};
ghost use Rattle.problem.specs.Problem.{rules_for, Ready};

use plan::{is_blocked, takes_register};
use problem::Problem;

// Whether the gate with this code may stand on the cell, between the ends.
fn may_stand(plan: &[u8], p: Problem, cell: usize, code: u16) -> bool
    requires { Ready p plan.now × (cell < length plan.now) }
    ensures { result ≡ may_stand (rules_for p plan.now) cell code }
{
    if code == 0 {
        return true;
    }
    if cell == p.sink || cell == p.source {
        return false;
    }
    if code == 7 {
        return takes_register(plan[cell]);
    }
    code as usize <= p.elements.count && !is_blocked(plan[cell])
}

// Whether the code is allowed at the visit.
pub fn code_right(plan: &[u8], p: Problem, last: bool, cell: usize, code: u16) -> bool
    requires { Ready p plan.now × (cell < length plan.now) }
    ensures { result ≡ code_right (rules_for p plan.now) 0 last (record { cell = cell; code = code }) }
{
    if last {
        code == 7
    } else {
        may_stand(plan, p, cell, code)
    }
}
