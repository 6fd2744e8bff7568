// What is handed back for an answer between two clocks, and the visit words that it fills.
ghost use Rattle.answers.specs.Numbers.{no_crossing, crossing_figures, crossed_words, crossing-laws};

use crate::answer::{CrossingFigures, RouteFigures};

impl RouteFigures for CrossingFigures {
    ghost nothing = { no_crossing };

    ghost steps_of = { λ f. f.steps };

    ghost figures_of = { crossing_figures };

    ghost words_of = { crossed_words };

    fn none() -> CrossingFigures {
        CrossingFigures {
            source: 0,
            sink: 0,
            steps: 0,
            latency: 0,
            slack: 0,
        }
    }

    fn steps(self) -> u32 {
        self.steps
    }

    ghost laws = { crossing-laws };
}
