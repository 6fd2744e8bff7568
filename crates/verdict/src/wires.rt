// The wire of a step.
ghost use Rattle.std.specs.Prelude.{◌<◌, length};
ghost use Rattle.problem.specs.Problem.{rules_for, Ready};
ghost use Rattle.verdict.specs.Visits.{LinkIs};

use plan::neighbours_of;
use problem::Problem;
use timing::Wire;

// The uncut wire that joins two cells, if one does.
pub fn wire_between(plan: &[u8], p: Problem, from: usize, cell: usize) -> Option<Wire>
    requires { Ready p plan.now × ((from < length plan.now) × (cell < length plan.now)) }
    ensures { LinkIs (rules_for p plan.now) from cell result }
{
    let near = neighbours_of(plan, p.width, p.height, from);
    if cell == near.left || cell == near.right {
        return Some(p.elements.horizontal);
    }
    if cell == near.up || cell == near.down {
        return Some(p.elements.vertical);
    }
    None
}
