// The answer of a route call, with one clock or two. `route_number` gives its number, `answer_figures` and `crossing_figures` its figures.
ghost use Rattle.std.specs.Prelude.{◌≡◌, ℕ};
ghost use Rattle.answers.specs.declared.answer.RouteAnswer.{RouteAnswer};
ghost use Rattle.answers.specs.Numbers.{no_figures, answer_figures, filled_words, route_number, FiguresLaws, figures-laws};

use crate::refusal::{Numbered, Refusal};

#[derive(Clone, Copy)]
pub enum RouteAnswer<F> {
    Found(F),
    // sheet: the visits need more words than were lent
    NoRoom(F),
    Refused(Refusal),
}

#[derive(Clone, Copy)]
pub struct Figures {
    pub registers: u16,
    pub steps: u32,
    pub latency: u32,
    // the smallest spare figure over the spans, in half-ticks (document 02, C-12)
    pub slack: i32,
}

// Of a net between two clocks: document 02, C-15.
#[derive(Clone, Copy)]
pub struct CrossingFigures {
    // registers on the source's side of the FIFO; neither the FIFO nor an end is among them
    pub source: u32,
    // those on the sink's side
    pub sink: u32,
    pub steps: u32,
    pub latency: u32,
    // the smallest spare figure over the spans, each by its own period, in half-ticks
    pub slack: i32,
}

pub type Answer = RouteAnswer<Figures>;

pub type CrossingAnswer = RouteAnswer<CrossingFigures>;

// Figures of routes of one kind: what is handed back for an answer, and the visit words that it fills, two a visit.
pub trait RouteFigures: Copy {
    ghost nothing: { Self };

    ghost steps_of: { Self → ℕ };

    ghost figures_of: { RouteAnswer Self → Self };

    ghost words_of: { RouteAnswer Self → ℕ };

    // All zeros.
    fn none() -> Self
        ensures { result ≡ nothing };

    fn steps(self) -> u32
        ensures { result ≡ steps_of self };

    ghost laws: { FiguresLaws nothing steps_of figures_of words_of };
}

impl RouteFigures for Figures {
    ghost nothing = { no_figures };

    ghost steps_of = { λ f. f.steps };

    ghost figures_of = { answer_figures };

    ghost words_of = { filled_words };

    fn none() -> Figures {
        Figures {
            registers: 0,
            steps: 0,
            latency: 0,
            slack: 0,
        }
    }

    fn steps(self) -> u32 {
        self.steps
    }

    ghost laws = { figures-laws };
}

impl<F: Copy> Numbered for RouteAnswer<F> {
    ghost number_of = { route_number };

    fn number(self) -> u16 {
        match self {
            RouteAnswer::Found(_) => 0,
            RouteAnswer::NoRoom(_) => 8,
            RouteAnswer::Refused(r) => r.number(),
        }
    }
}

impl<F: RouteFigures> RouteAnswer<F> {
    // The figures handed back: zeros for every refusal but 8.
    pub fn figures(self) -> F
        ensures { result ≡ F.figures_of self }
    {
        match self {
            RouteAnswer::Found(f) => f,
            RouteAnswer::NoRoom(f) => f,
            RouteAnswer::Refused(_) => F::none(),
        }
    }

    // The visit words that the answer fills: two a visit.
    pub fn filled(self) -> usize
        ensures { result ≡ F.words_of self }
    {
        match self {
            RouteAnswer::Found(f) => 2 * (f.steps() as usize + 1),
            RouteAnswer::NoRoom(_) => 0,
            RouteAnswer::Refused(_) => 0,
        }
    }
}
