// Whether a route exists with other tables.
ghost use Rattle.std.specs.Prelude.{length};
ghost use Rattle.timing.specs.Valid.{Valid};
ghost use Rattle.problem.specs.Problem.{Ready};
ghost use Rattle.table.specs.Problem.{Room};
ghost use Rattle.reasons.specs.Probe.{Probed};

use costs::costs_of;
use problem::Problem;
use router::least_ready;
use timing::Elements;

// Whether the problem has a legal route with these elements in place of its own: one search.
pub fn exists_with(plan: &[u8], scratch: &mut [u16], p: Problem, elements: Elements) -> bool
    requires { Ready p plan.now × (Room (length plan.now) scratch.old × Valid elements) }
    ensures { Probed p elements plan.now scratch.old scratch.new result }
{
    let costs = costs_of(elements, elements.register);
    let q = Problem { elements, ..p };
    least_ready(plan, scratch, q, &costs).is_some()
}
