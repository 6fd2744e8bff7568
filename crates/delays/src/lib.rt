// The least delays, in the scratch words: for each cell and load the least so far with which a span comes to the cell under at most that load, and for each cell the least with which one closes there. NEVER is none.
#![tactic(auto)]

ghost use Rattle.std.specs.Prelude.{◌≡◌, true, ◌+◌, ◌*◌, ◌-◌, ◌≤◌, ◌<◌, length};
ghost use Rattle.costs.specs.Costs.{row_words};
ghost use Rattle.rows.specs.Words.{Filled};
ghost use Rattle.queue.specs.Queue.{Space, Queue};
ghost use Rattle.delays.specs.Delays.{never, Falling, Cut, Eased, Lines, NextClose, NoneBefore};

use costs::ROW;
use layout::{CLOSES, QUEUE};
use queue::join;

// Later than any delay. A number and no Option: it stands in a word of the lent scratch, and `Falling` and `NextClose` order it with the delays.
pub const NEVER: u16 = 65_535;

// The latest delay that counts, in half-ticks: twice the longest period.
pub const LATEST: u32 = 60_000;

// Words from `at` up to `end` become NEVER.
pub fn fill_never(scratch: &mut [u16], at: usize, end: usize)
    requires { (at ≤ end) × (end ≤ length scratch.old) }
    ensures { Filled (λ k. never) at (end - at) scratch.old scratch.new }
{
    scratch[at..end].fill(NEVER);
}

// Words from `at` up to `end` become the delay, as far as they are later.
fn cut_row(scratch: &mut [u16], at: usize, end: usize, delay: u16)
    requires { (at ≤ end) × (end ≤ length scratch.old) }
    ensures { Cut at end delay scratch.old scratch.new }
{
    for i in at..end {
        if scratch[i] <= delay {
            return;
        }
        scratch[i] = delay;
    }
}

// A span comes to the cell with this load and delay. Where that is earlier than any with no more load, the state waits. The new count.
pub fn ease(
    scratch: &mut [u16],
    n: usize,
    limit: usize,
    cell: usize,
    load: usize,
    delay: u16,
    count: usize,
) -> usize
    requires { Space n scratch.old × (Queue n scratch.old count × (Falling n limit scratch.old × ((cell < n) × ((load ≤ limit) × (limit < row_words))))) }
    ensures { Eased n limit cell load delay scratch.old count scratch.new result }
{
    let at = cell * ROW + load;
    if scratch[at] <= delay {
        return count;
    }
    cut_row(scratch, at, cell * ROW + limit + 1, delay);
    join(scratch, n, count, at)
}

// The earliest close after the bound, NEVER for none.
pub fn next_close(scratch: &[u16], n: usize, bound: u16) -> u16
    requires { Lines n scratch.now }
    ensures { NextClose n scratch.now bound result }
{
    let mut least = NEVER;
    for c in 0..n {
        let close = scratch[n * CLOSES + c];
        if bound < close && close < least {
            least = close;
        }
    }
    least
}

// Whether no state that waits is earlier than the close, but idle ones: where a lighter state of the cell is as early.
pub fn none_before(scratch: &[u16], n: usize, count: usize, close: u16) -> bool
    requires { Space n scratch.now × Queue n scratch.now count }
    ensures { result ≡ true → NoneBefore n scratch.now count close }
{
    for i in 0..count {
        let state = scratch[n * QUEUE + i] as usize;
        let delay = scratch[state];
        if delay < close && (state % ROW == 0 || delay < scratch[state - 1]) {
            return false;
        }
    }
    true
}
