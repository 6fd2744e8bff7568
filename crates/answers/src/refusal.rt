// Refusals, and the numbers of all that answers: document 01's and document 02's.
ghost use Rattle.std.specs.Prelude.{◌≡◌, ℕ};
ghost use Rattle.answers.specs.declared.refusal.Refusal.TheVariants.{Element};
ghost use Rattle.answers.specs.Numbers.{plan_refusal, refusal_number, result_number};

use plan::PlanFault;

// Refusal 4: which number was at fault. Buffer holds the buffer's place, from 1.
// With one clock T is `Period`; between two clocks `SourcePeriod` and `SinkPeriod` stand in its place, and `Fifo` after `Register`. `Skew` is document 02's, C-16.
#[derive(Clone, Copy)]
pub enum Fault {
    // T
    Period,
    SourcePeriod,
    SinkPeriod,
    Skew,
    // L
    Limit,
    Horizontal,
    Vertical,
    Register,
    Fifo,
    Count,
    Buffer(u16),
}

// The refusals that have no figures.
#[derive(Clone, Copy)]
pub enum Refusal {
    Grid,
    // plan length
    Length,
    // stray mark
    Mark,
    Element(Fault),
    Ends,
    // bench
    Scratch,
    NoRoute,
    // a route list of odd length or under two visits
    RouteList,
    // neither of two lists is legal
    NoneLegal,
    // asked why there is no route, but there is one
    RouteExists,
}

impl From<PlanFault> for Refusal {
    ghost from_gives = { λ fault refusal. refusal ≡ plan_refusal fault };

    fn from(fault: PlanFault) -> Refusal {
        match fault {
            PlanFault::Grid => Refusal::Grid,
            PlanFault::Length => Refusal::Length,
            PlanFault::Mark => Refusal::Mark,
        }
    }
}

impl From<Fault> for Refusal {
    ghost from_gives = { λ fault refusal. refusal ≡ Element fault };

    fn from(fault: Fault) -> Refusal {
        Refusal::Element(fault)
    }
}

// What has a number of document 01 or 02.
pub trait Numbered {
    ghost number_of: { Self → ℕ };

    fn number(self) -> u16
        ensures { result ≡ number_of self };
}

// 1 to 7, or 17 to 19.
impl Numbered for Refusal {
    ghost number_of = { refusal_number };

    fn number(self) -> u16 {
        match self {
            Refusal::Grid => 1,
            Refusal::Length => 2,
            Refusal::Mark => 3,
            Refusal::Element(_) => 4,
            Refusal::Ends => 5,
            Refusal::Scratch => 6,
            Refusal::NoRoute => 7,
            Refusal::RouteList => 17,
            Refusal::NoneLegal => 18,
            Refusal::RouteExists => 19,
        }
    }
}

// 0 where a call answers and does not refuse.
impl<T: Copy> Numbered for Result<T, Refusal> {
    ghost number_of = { result_number };

    fn number(self) -> u16 {
        match self {
            Ok(_) => 0,
            Err(r) => r.number(),
        }
    }
}
