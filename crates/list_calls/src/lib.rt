// The session player's commands on route lists from outside, and what they print.
#![tactic(auto)]

mod commands;
mod lines;
mod words;

pub use commands::{better, judge};
pub use words::LIST_WORDS;
