// What a session player holds beside the lent bytes and words, and the commands of its script that call nothing.
#![tactic(auto)]

mod commands;
mod error;
mod net;
mod player;

pub use error::PlayError;
pub use net::Net;
pub use player::{Player, SCRATCH_WORDS, UNUSED, VISIT_WORDS};
