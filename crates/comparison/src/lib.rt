// The better of two route lists from outside: document 02, C-11. Its whole effect is specs/Better.antt.
#![tactic(auto)]

mod compare;
mod handed;
mod ranks;

pub use compare::compare_asked;
pub use handed::better_asked;
