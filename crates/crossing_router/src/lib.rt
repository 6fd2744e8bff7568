// The covered route call for nets between two clocks: refusals in their order, then the best route over both sides of the FIFO.
#![tactic(auto)]

mod checks;
mod sides;

pub use checks::route_crossing_asked;
