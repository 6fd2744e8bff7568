// What the benchmark's entries read from words, and the words that they tell.
#![tactic(auto)]

mod crossed;
mod faults;
mod figures;
mod found;
mod lengths;
mod why;
mod words;

pub use crossed::write_crossed;
pub use faults::fault_number;
pub use figures::write_figures;
pub use found::{Found, found_of, write_found};
pub use lengths::{WRONG_LENGTH, crossing_lengths_right, lengths_right};
pub use why::{Why, why_of, write_why};
pub use words::{read_buffers, read_crossing};
