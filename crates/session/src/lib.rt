// Sessions: open, move and undo on a plan, a record and a journal. Document 01, "Calls and what they leave".
#![tactic(auto)]

mod calls;
mod checks;
mod journal;
mod records;

pub use calls::{open_at, set_marks_at, undo_at};
pub use records::{Session, SessionRefusal, SessionStep, session_number};
