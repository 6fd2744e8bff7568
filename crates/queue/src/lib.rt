// The states that wait, in the scratch words: a heap, the earliest first. A state is a cell and a load, by its place in the rows from 0 on: cell * costs::ROW + load. Its delay is the word there.
// What is promised is which states wait, not in what order they come: no answer depends on the order, only the time that it takes.
// Slice, n and count stay parameters: between two calls the rows and closes in the same lent words are read and written, so a struct over them would be taken apart and built again each time.
#![tactic(auto)]

ghost use Rattle.std.specs.Prelude.{◌≡◌, ◌*◌, ◌<◌, ltb};
ghost use Rattle.costs.specs.Costs.{row_words};
ghost use Rattle.queue.specs.Queue.{delay_at, Space, Slot, Queue, Exchanged, Requeued, Joined, Left};

use layout::{PLACES, QUEUE};

// The delay of the state at a place of the queue.
pub fn delay_at(scratch: &[u16], n: usize, i: usize) -> u16
    requires { Space n scratch.now × Slot n scratch.now i }
    ensures { result ≡ delay_at n scratch.now i }
{
    scratch[scratch[n * QUEUE + i] as usize]
}

// Whether the state at place i is earlier than the one at place j.
fn earlier(scratch: &[u16], n: usize, i: usize, j: usize) -> bool
    requires { Space n scratch.now × (Slot n scratch.now i × Slot n scratch.now j) }
    ensures { result ≡ ltb (delay_at n scratch.now i) (delay_at n scratch.now j) }
{
    delay_at(scratch, n, i) < delay_at(scratch, n, j)
}

// The states at two places change places.
fn exchange(scratch: &mut [u16], n: usize, i: usize, j: usize)
    requires { Space n scratch.old × (Slot n scratch.old i × Slot n scratch.old j) }
    ensures { Exchanged n i j scratch.old scratch.new }
{
    let a = scratch[n * QUEUE + i];
    let b = scratch[n * QUEUE + j];
    scratch.swap(n * QUEUE + i, n * QUEUE + j);
    scratch[n * PLACES + b as usize] = i as u16;
    scratch[n * PLACES + a as usize] = j as u16;
}

// The state at a place moves up, as long as it is earlier than the one above it.
fn lift(scratch: &mut [u16], n: usize, count: usize, at: usize)
    requires { Space n scratch.old × (Queue n scratch.old count × (at < count)) }
    ensures { Requeued n count scratch.old scratch.new }
{
    let mut i = at;
    while 0 < i {
        let above = (i - 1) / 2;
        if !earlier(scratch, n, i, above) {
            return;
        }
        exchange(scratch, n, i, above);
        i = above;
    }
}

// The first state moves down, as long as one below it is earlier.
fn sift(scratch: &mut [u16], n: usize, count: usize)
    requires { Space n scratch.old × Queue n scratch.old count }
    ensures { Requeued n count scratch.old scratch.new }
{
    let mut i = 0;
    while 2 * i + 1 < count {
        let mut below = 2 * i + 1;
        if below + 1 < count && earlier(scratch, n, below + 1, below) {
            below += 1;
        }
        if !earlier(scratch, n, below, i) {
            return;
        }
        exchange(scratch, n, i, below);
        i = below;
    }
}

// The state waits, where it did not yet, and moves up by its delay. The new count.
pub fn join(scratch: &mut [u16], n: usize, count: usize, state: usize) -> usize
    requires { Space n scratch.old × (Queue n scratch.old count × (state < n * row_words)) }
    ensures { Joined n count state scratch.old scratch.new result }
{
    let place = scratch[n * PLACES + state] as usize;
    if place < count && scratch[n * QUEUE + place] as usize == state {
        lift(scratch, n, count, place);
        return count;
    }
    scratch[n * QUEUE + count] = state as u16;
    scratch[n * PLACES + state] = count as u16;
    lift(scratch, n, count + 1, count);
    count + 1
}

// The first state leaves: the state.
pub fn leave(scratch: &mut [u16], n: usize, count: usize) -> usize
    requires { Space n scratch.old × (Queue n scratch.old count × (0 < count)) }
    ensures { Left n count scratch.old scratch.new result }
{
    let state = scratch[n * QUEUE] as usize;
    exchange(scratch, n, 0, count - 1);
    sift(scratch, n, count - 1);
    state
}
