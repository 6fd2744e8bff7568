// The search: labels by weight and steps to go, layers by steps to go, on the scratch words.
#![tactic(auto)]

mod anew;
mod idle;
mod loops;
mod turns;

pub use anew::search_anew;
pub use turns::Reached;
