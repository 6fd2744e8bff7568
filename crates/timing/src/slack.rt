// Spare figures (document 02, C-12): half-ticks, signed.
ghost use Rattle.std.specs.Prelude.{◌≡◌};
ghost use Rattle.timing.specs.Slack.{smaller, magnitude};

// The largest miss that is told.
pub const MISS_MOST: u32 = 1_000_000_000;

pub const LOWEST: i32 = -1_000_000_000;

// No span has more: twice the longest period.
pub const MOST: i32 = 60_000;

// The smaller of two figures.
pub fn smaller_slack(a: i32, b: i32) -> i32
    ensures { result ≡ smaller a b }
{
    if b < a { b } else { a }
}

// The figure without its sign.
pub fn slack_magnitude(z: i32) -> u32
    ensures { result ≡ magnitude z }
{
    z.unsigned_abs()
}
