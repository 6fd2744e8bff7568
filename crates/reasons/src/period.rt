// The smallest period at which a route exists.
ghost use Rattle.std.specs.Prelude.{◌≤◌, ◌<◌, ◌≡◌, true, false, length};
ghost use Rattle.timing.specs.Ranges.{period_min, period_max};
ghost use Rattle.problem.specs.Problem.{Ready};
ghost use Rattle.table.specs.Problem.{Room};
ghost use Rattle.reasons.specs.Probe.{Told, routed_for, smallest_for};

use crate::probe::exists_with;
use problem::Problem;

// By halving: there is no route at `below` and one at `enough`. From a gap of 29,999 ticks it takes 15 searches.
pub fn smallest_period(plan: &[u8], scratch: &mut [u16], p: Problem, below: u16, enough: u16) -> u16
    requires { Ready p plan.now × (Room (length plan.now) scratch.old × ((period_min ≤ below) × ((below < enough) × ((enough ≤ period_max) × ((routed_for p plan.now below ≡ false) × (routed_for p plan.now enough ≡ true)))))) }
    ensures { Told (smallest_for p plan.now) (length plan.now) scratch.old scratch.new result }
{
    let mut low = below;
    let mut high = enough;
    while low + 1 < high {
        let middle = low + (high - low) / 2;
        if exists_with(plan, scratch, p, p.elements.at_period(middle)) {
            high = middle;
        } else {
            low = middle;
        }
    }
    high
}
