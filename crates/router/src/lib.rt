// The covered route call: refusals in their order, then the best route of the problem.
#![tactic(auto)]

mod checks;
mod least;
mod ready;
mod writing;

pub use checks::route_asked;
pub use least::{Least, least_ready};
pub use writing::{Written, write_out};
