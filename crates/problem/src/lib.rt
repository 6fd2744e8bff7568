// A routing problem: the plan's sides, the ends and the checked tables. The marks are lent beside it.
#![tactic(auto)]

mod net;

pub use net::Net;
use timing::Elements;

#[derive(Clone, Copy)]
pub struct Problem {
    pub width: usize,
    pub height: usize,
    pub source: usize,
    pub sink: usize,
    pub elements: Elements,
}
