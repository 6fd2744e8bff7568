// The reading of a job: document 01, "The job and its printed sheet". Part of the program; outsiders have no such call.
#![tactic(auto)]

mod fields;
mod read;

pub use fields::{TABLE_NUMBERS, buffers_of, tables_of};
pub use read::{Asked, read_job};
