// Where the visits judged so far have come.
ghost use Rattle.std.specs.Prelude.{◌≡◌, ◌≤◌, min};
ghost use Rattle.verdict.specs.Cap.{delay_cap};

use timing::{HalfTicks, Load};

// Twice the longest period and the largest miss that is told: a span that comes so far has the lowest figure, whatever follows, so that nothing more need be counted.
pub const DELAY_CAP: u32 = 1_000_060_000;

// The last visit's cell, the load and delay after its gate, and the smallest spare figure of the spans closed so far. The delay stops at DELAY_CAP.
#[derive(Clone, Copy)]
pub struct Point {
    pub cell: usize,
    pub load: Load,
    pub delay: HalfTicks,
    pub slack: i32,
    pub ghost early: { delay.0 ≤ delay_cap },
}

// The delay, or the cap.
pub fn capped(delay: HalfTicks) -> HalfTicks
    ensures { result.0 ≡ min delay.0 delay_cap }
{
    HalfTicks(delay.0.min(DELAY_CAP))
}
