// What the programs print of a call: its answer, and the words that it was lent. Each says why not all was written.
#![tactic(auto)]

mod answer;
mod words;

pub use answer::{Told, write_answer, write_call, write_element, write_fault, write_slack};
pub use words::{write_left, write_runs, write_words, write_zeroed};
