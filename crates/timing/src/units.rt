// Units. A load is never added to a delay: each has its own type.
ghost use Rattle.std.specs.Prelude.{◌≡◌, ◌+◌, ◌*◌, ◌≤◌, cond, leb, ltb};
ghost use Rattle.timing.specs.Ranges.{period_max};
ghost use Rattle.timing.specs.Slack.{slack_of};

use crate::slack::{LOWEST, MISS_MOST};

// Load units.
#[derive(Clone, Copy)]
pub struct Load(pub u16);

// Ticks per load unit.
#[derive(Clone, Copy)]
pub struct Resistance(pub u16);

// A delay in half-ticks.
#[derive(Clone, Copy)]
pub struct HalfTicks(pub u32);

impl Load {
    pub const MAX: u16 = 63;

    // The sum of two loads.
    pub fn plus(self, other: Load) -> Load
        requires { (self.0 ≤ 63) × (other.0 ≤ 63) }
        ensures { result.0 ≡ self.0 + other.0 }
    {
        Load(self.0 + other.0)
    }

    // Whether the load is within a limit.
    pub fn at_most(self, limit: Load) -> bool
        ensures { result ≡ leb self.0 limit.0 }
    {
        self.0 <= limit.0
    }

    // The load, or none.
    pub fn kept(self, keep: bool) -> Load
        ensures { result.0 ≡ cond keep self.0 0 }
    {
        if keep { self } else { Load(0) }
    }
}

impl Resistance {
    pub const MAX: u16 = 255;
}

impl HalfTicks {
    // The sum of two delays.
    pub fn plus(self, other: HalfTicks) -> HalfTicks
        requires { self.0 + other.0 ≤ 4294967295 }
        ensures { result.0 ≡ self.0 + other.0 }
    {
        HalfTicks(self.0 + other.0)
    }

    // Whether the delay is below a budget.
    pub fn below(self, budget: HalfTicks) -> bool
        ensures { result ≡ ltb self.0 budget.0 }
    {
        self.0 < budget.0
    }

    // The spare half-ticks of a span with this closing delay: 2T less it, below zero by the miss, at lowest -1,000,000,000.
    pub fn slack(self, period: u16) -> i32
        requires { period ≤ period_max }
        ensures { result ≡ slack_of (2 * period) self.0 }
    {
        let allowed = 2 * period as u32;
        if allowed + MISS_MOST < self.0 {
            return LOWEST;
        }
        allowed as i32 - self.0 as i32
    }
}
