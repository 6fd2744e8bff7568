// The first period at which a route exists, in one pass from the sink on: document 02, C-13.
// The earliest state goes first. A span closes at a cell as soon as that is within the period; where nothing more can close, the period goes up to the next close.
#![tactic(auto)]

mod turns;

ghost use Rattle.std.specs.Prelude.{◌≤◌, length};
ghost use Rattle.timing.specs.Formulas.{register_load};
ghost use Rattle.problem.specs.Problem.{Ready};
ghost use Rattle.table.specs.Problem.{Room};
ghost use Rattle.earliest.specs.Earliest.{Begun, FirstPeriod};

use costs::ROW;
use delays::fill_never;
use layout::{CLOSES, HINT};
use problem::Problem;
use spans::start;
use turns::{Progress, take_turn};

// What a pass tells. Three cases, each told in another way, so no Option: an Option in an Option would not say which None is which.
#[derive(Clone, Copy)]
pub enum First {
    // The first period from the problem's own on at which a route exists.
    At(u16),
    // No period has a route.
    Never,
    // The turns were used up.
    Unknown,
}

// The pass begins at the sink, with every delay NEVER: the count of states that wait.
fn begin(plan: &[u8], scratch: &mut [u16], p: Problem) -> usize
    requires { Ready p plan.now × (Room (length plan.now) scratch.old × (register_load p.elements.register ≤ p.elements.limit.0)) }
    ensures { Begun p plan.now scratch.old scratch.new result }
{
    let n = plan.len();
    fill_never(scratch, 0, n * ROW);
    fill_never(scratch, n * CLOSES, n * (HINT + 1));
    start(scratch, n, p, p.sink, 0)
}

// The first period, if so many turns find it.
pub fn first_period(plan: &[u8], scratch: &mut [u16], p: Problem, turns: usize) -> First
    requires { Ready p plan.now × Room (length plan.now) scratch.old }
    ensures { FirstPeriod p plan.now scratch.old scratch.new result }
{
    let n = plan.len();
    if p.elements.limit.0 < p.elements.register.load().0 {
        return First::Never;
    }
    let count = begin(plan, scratch, p);
    let mut f = Progress {
        period: p.elements.period,
        count,
    };
    let mut left = turns;
    // A while: the turns left only bound it, and with a for the test that ends it would be written twice.
    while 2 * f.period < scratch[n * CLOSES + p.source] {
        if left == 0 {
            return First::Unknown;
        }
        left -= 1;
        let Some(g) = take_turn(plan, scratch, p, f) else {
            return First::Never;
        };
        f = g;
    }
    First::At(f.period)
}
