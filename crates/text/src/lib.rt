// The text that the route printer writes: document 01, "The job and its printed sheet".
#![tactic(auto)]

mod answer;
mod put;

pub use answer::{put_answer, put_refusal};
