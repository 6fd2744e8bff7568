// Standard input, read into a lent room, standard output, and the line of a program that failed. Input and output are tried again after an
// interruption, and both say why they failed.
#![tactic(auto)]

mod failure;
mod input;
mod output;

// So many reads or writes may be interrupted before the input or the output counts as failed.
const INTERRUPTIONS: u32 = 1000000;

pub use failure::fail;
pub use input::{Input, read_input};
pub use output::{write_digits, write_number, write_text};
