// What emission keeps of the side where it is, beside the state.
ghost use Rattle.std.specs.Prelude.{◌≡◌, ◌+◌, ◌<◌};
ghost use Rattle.emission.specs.Emission.{counts_after, PassAsks, Passed, tallied_after};

use labels::copy_set;
use layout::{ASIDE, LABELS};

// How many labels the side has: of registers, with the source's, and of FIFOs.
#[derive(Clone, Copy)]
pub struct Counts {
    pub registers: usize,
    pub exits: usize,
}

// Registers so far, on the sink's side and on the source's; the source's end is counted, the sink's is not.
#[derive(Clone, Copy)]
pub struct Tally {
    pub sink: u32,
    pub source: u32,
}

// After a visit with this code: past the FIFO, the labels that were laid aside are taken back.
pub fn pass(scratch: &mut [u16], n: usize, code: u16, aside: usize, left: Counts) -> Counts
    requires { PassAsks n code scratch.old }
    ensures { Passed n code scratch.old scratch.new × (result ≡ counts_after code aside left) }
{
    if code == 8 {
        copy_set(scratch, n, n * ASIDE, n * LABELS);
        Counts {
            registers: aside,
            exits: 0,
        }
    } else {
        left
    }
}

// One register more, if the visit's code is a register's.
pub fn tallied(tally: Tally, side: usize, code: u16) -> Tally
    requires { tally.sink + tally.source < 4294967295 }
    ensures { result ≡ tallied_after tally side code }
{
    match (code, side) {
        (7, 0) => Tally {
            sink: tally.sink + 1,
            ..tally
        },
        (7, _) => Tally {
            source: tally.source + 1,
            ..tally
        },
        _ => tally,
    }
}
