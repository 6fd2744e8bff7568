// Why there is no route: document 02, C-13.
#![tactic(auto)]

mod checks;
mod period;
mod probe;
mod reason;

pub use checks::explain_asked;
