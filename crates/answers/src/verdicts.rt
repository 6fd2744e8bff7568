// The answers about route lists from outside: the verdict on one list, and which of two is the better. Document 02, C-11.
use crate::refusal::Refusal;

// What is wrong with a visit, in the order of the tests.
#[derive(Clone, Copy)]
pub enum VisitFault {
    // "outside the plan, or an end that isn't the sink or source"
    Cell,
    // "to it from the visit before"
    Wire,
    // gate site: "any code not allowed at that visit"
    Site,
    // load before or after the gate is above L
    Load,
    // the span that closes here is too slow: its spare half-ticks, below zero by the miss
    Period(i32),
}

// What the tests say of a list that is not refused; an illegal one is answered, too.
#[derive(Clone, Copy)]
pub enum Finding {
    // the smallest spare figure over the spans
    Accepted(i32),
    // the first visit at fault, from 0, and the fault there
    AtFault(usize, VisitFault),
}

pub type Verdict = Result<Finding, Refusal>;

// Which of two lists is the better.
#[derive(Clone, Copy)]
pub enum Which {
    First,
    Second,
}

pub type Comparison = Result<Which, Refusal>;
