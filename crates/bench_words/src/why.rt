// The words that tell why there is no route.
ghost use Rattle.std.specs.Prelude.{◌≡◌, length};
ghost use Rattle.bench_words.specs.Words.{result_numbers};
ghost use Rattle.bench_words.specs.Explained.{reason_place, period_told, why_of, why_words};

use crate::faults::refusal_fault;
use answers::{Explained, Reason};

// What is told, in the order of the words.
#[derive(Clone, Copy)]
pub struct Why {
    // the reason's place, from 1; 0 for none
    pub reason: u32,
    // the smallest period; 0 for any other reason
    pub period: u32,
    // the place of refusal 4; 0 for none
    pub element: u32,
}

fn reason_number(reason: Reason) -> u32
    ensures { result ≡ reason_place reason }
{
    match reason {
        Reason::WalledOff => 1,
        Reason::Load => 2,
        Reason::Period(_) => 3,
        Reason::TooShort => 4,
    }
}

fn period_of(reason: Reason) -> u32
    ensures { result ≡ period_told reason }
{
    match reason {
        Reason::Period(period) => u32::from(period),
        _ => 0,
    }
}

pub fn why_of(explained: Explained) -> Why
    ensures { result ≡ why_of explained }
{
    match explained {
        Ok(reason) => Why {
            reason: reason_number(reason),
            period: period_of(reason),
            element: 0,
        },
        Err(r) => Why {
            reason: 0,
            period: 0,
            element: refusal_fault(r, 1),
        },
    }
}

#[tactic(auto, unfolding(crate::specs::Explained::why_words))]
pub fn write_why(w: Why, words: &mut [u32])
    requires { length words.old ≡ result_numbers }
    ensures { words.new ≡ why_words w }
{
    words.copy_from_slice(&[w.reason, w.period, w.element, 0, 0]);
}
