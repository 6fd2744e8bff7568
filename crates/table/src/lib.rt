// One layer of the delay-budget table, on the lent scratch words.
#![tactic(auto)]

mod arrival;
mod layer;
mod pushes;

pub use arrival::{marks_seed, takes_buffers};
pub use layer::{clear_flags, next_layer};
pub use pushes::Grown;
