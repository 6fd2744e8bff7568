// The answer about a net that has no route: document 02, C-13.
use crate::refusal::Refusal;

// Why there is no route.
#[derive(Clone, Copy)]
pub enum Reason {
    // "no chain of uncut wires joins the ends"
    WalledOff,
    // "a chain exists, but with the period test left out no legal route does"
    Load,
    // the smallest period, in ticks, at which a route exists
    Period(u16),
    // even 30,000 ticks are too short
    TooShort,
}

pub type Explained = Result<Reason, Refusal>;
