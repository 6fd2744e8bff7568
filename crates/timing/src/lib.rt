// Elements and their timing: document 01, "Elements" and the delay formulas of "Legal routes".
// Only Wire::delay and Driver::delay join a resistance, a load and a delay.
#![tactic(auto)]

mod clocks;
mod elements;
mod slack;
mod units;

pub use clocks::Clocks;
pub use elements::{Buffer, Driver, Elements, Register, Wire};
pub use slack::{MOST as SLACK_MOST, slack_magnitude, smaller_slack};
pub use units::{HalfTicks, Load, Resistance};
