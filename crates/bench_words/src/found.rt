// The words that tell a verdict.
ghost use Rattle.std.specs.Prelude.{◌≡◌, length};
ghost use Rattle.bench_words.specs.Words.{result_numbers};
ghost use Rattle.bench_words.specs.Judged.{visit_fault_place, miss_of, found_of, found_words};

use crate::faults::refusal_fault;
use answers::{Finding, Verdict, VisitFault};
use timing::slack_magnitude;

// What is told, in the order of the words.
#[derive(Clone, Copy)]
pub struct Found {
    // 1 where the list is accepted
    pub accepted: u64,
    // the first visit at fault
    pub visit: u64,
    // its fault's place in the order of the tests, from 1; 0 for none
    pub fault: u64,
    // the place of refusal 4; 0 for none
    pub element: u64,
    // the spare half-ticks of an accepted list, the miss of a period fault; 0 for all else
    pub slack: u64,
}

fn visit_fault_number(fault: VisitFault) -> u64
    ensures { result ≡ visit_fault_place fault }
{
    match fault {
        VisitFault::Cell => 1,
        VisitFault::Wire => 2,
        VisitFault::Site => 3,
        VisitFault::Load => 4,
        VisitFault::Period(_) => 5,
    }
}

fn miss_of(fault: VisitFault) -> u64
    ensures { result ≡ miss_of fault }
{
    match fault {
        VisitFault::Period(slack) => u64::from(slack_magnitude(slack)),
        _ => 0,
    }
}

const NOTHING: Found = Found {
    accepted: 0,
    visit: 0,
    fault: 0,
    element: 0,
    slack: 0,
};

pub fn found_of(verdict: Verdict) -> Found
    ensures { result ≡ found_of verdict }
{
    match verdict {
        Ok(Finding::Accepted(slack)) => Found {
            accepted: 1,
            slack: u64::from(slack_magnitude(slack)),
            ..NOTHING
        },
        Ok(Finding::AtFault(visit, fault)) => Found {
            visit: visit as u64,
            fault: visit_fault_number(fault),
            slack: miss_of(fault),
            ..NOTHING
        },
        Err(refusal) => Found {
            element: u64::from(refusal_fault(refusal, 1)),
            ..NOTHING
        },
    }
}

#[tactic(auto, unfolding(crate::specs::Judged::found_words))]
pub fn write_found(f: Found, words: &mut [u64])
    requires { length words.old ≡ result_numbers }
    ensures { words.new ≡ found_words f }
{
    words.copy_from_slice(&[f.accepted, f.visit, f.fault, f.element, f.slack]);
}
