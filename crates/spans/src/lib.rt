// Spans on their way, from a cell to its neighbours.
#![tactic(auto)]

mod arrivals;
mod steps;

pub use arrivals::start;
pub use steps::spread;
