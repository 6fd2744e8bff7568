// One turn of the pass.
ghost use Rattle.std.specs.Prelude.{◌≡◌, true, false, cond, ltb, ◌+◌, ◌*◌, ◌/◌, ◌<◌, length};
ghost use Rattle.queue.specs.Queue.{Queue};
ghost use Rattle.delays.specs.Delays.{never, Lines, NoneBefore, closes_of};
ghost use Rattle.earliest.specs.Earliest.{StartAllAsks, StartedOne, StartedAll, Passing, GoneOn, RiseAsks, TurnDone};

use delays::{NEVER, next_close, none_before};
use layout::{CLOSES, HINT};
use problem::Problem;
use queue::{delay_at, leave};
use spans::{spread, start};

// The period that the pass has come to, and the count of states that wait.
#[derive(Clone, Copy)]
pub struct Progress {
    pub period: u16,
    pub count: usize,
}

// Whether the first state that waits goes on with no look for the next close: it is not later than the hint.
fn is_early(scratch: &[u16], n: usize, count: usize) -> bool
    requires { Lines n scratch.now × Queue n scratch.now count }
    ensures { result ≡ true → 0 < count }
{
    0 < count && delay_at(scratch, n, 0) <= scratch[n * HINT]
}

// The next span starts at the cell, where one closes within the period.
fn start_at(
    plan: &[u8],
    scratch: &mut [u16],
    p: Problem,
    period: u16,
    cell: usize,
    count: usize,
) -> usize
    requires { StartAllAsks p plan.now period scratch.old count × (cell < length plan.now) }
    ensures { StartedOne p plan.now period cell scratch.old count scratch.new result }
{
    let n = plan.len();
    if cell == p.source || 2 * period < scratch[n * CLOSES + cell] {
        return count;
    }
    start(scratch, n, p, cell, count)
}

// At each cell.
fn start_all(plan: &[u8], scratch: &mut [u16], p: Problem, period: u16, count: usize) -> usize
    requires { StartAllAsks p plan.now period scratch.old count }
    ensures { StartedAll p plan.now period scratch.old count scratch.new result }
{
    let mut waiting = count;
    for cell in 0..plan.len() {
        waiting = start_at(plan, scratch, p, period, cell, waiting);
    }
    waiting
}

// The first state that waits goes on.
fn go_on(plan: &[u8], scratch: &mut [u16], p: Problem, f: Progress) -> Progress
    requires { Passing p plan.now f.period scratch.old f.count × (0 < f.count) }
    ensures { GoneOn p plan.now scratch.old f scratch.new result }
{
    let n = plan.len();
    let state = leave(scratch, n, f.count);
    let count = spread(plan, scratch, p, f.period, state, f.count - 1);
    Progress { count, ..f }
}

// An eighth more, NEVER where that is too late to count: a look that came too early is not taken again at once.
fn eighth_more(delay: u16) -> u16
    ensures { result ≡ cond (ltb delay 50000) (delay + delay / 8) never }
{
    if delay < 50_000 {
        delay + delay / 8
    } else {
        NEVER
    }
}

// Whether a state that waits goes on first, before the period can go up to the close.
fn goes_first(scratch: &[u16], n: usize, count: usize, close: u16) -> bool
    requires { Lines n scratch.now × Queue n scratch.now count }
    ensures { (result ≡ true → 0 < count) × (result ≡ false → NoneBefore n scratch.now count close) }
{
    0 < count && !none_before(scratch, n, count, close)
}

// The period goes up to the next close. None: no period has a route.
fn rise(plan: &[u8], scratch: &mut [u16], p: Problem, f: Progress, close: u16) -> Option<Progress>
    requires { RiseAsks p plan.now scratch.old f close }
    ensures { TurnDone p plan.now scratch.old f scratch.new result }
{
    let n = plan.len();
    if close == NEVER {
        return None;
    }
    let period = (close + 1) / 2;
    let count = start_all(plan, scratch, p, period, f.count);
    let hint = next_close(scratch, n, 2 * period);
    scratch[n * HINT] = hint;
    Some(Progress { period, count })
}

// One turn, where the source is not reached yet: the first state that waits goes on, or the period goes up. None: no period has a route.
pub fn take_turn(plan: &[u8], scratch: &mut [u16], p: Problem, f: Progress) -> Option<Progress>
    requires { Passing p plan.now f.period scratch.old f.count × (2 * f.period < closes_of (length plan.now) scratch.old p.source) }
    ensures { TurnDone p plan.now scratch.old f scratch.new result }
{
    let n = plan.len();
    if is_early(scratch, n, f.count) {
        return Some(go_on(plan, scratch, p, f));
    }
    let close = next_close(scratch, n, 2 * f.period);
    if goes_first(scratch, n, f.count, close) {
        let first = delay_at(scratch, n, 0);
        scratch[n * HINT] = eighth_more(first);
        return Some(go_on(plan, scratch, p, f));
    }
    rise(plan, scratch, p, f, close)
}
