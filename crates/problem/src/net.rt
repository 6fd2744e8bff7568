// A net: a routing problem with its clocks. The spans up to the FIFO are the sink's side, number 0; those beyond it are side 1. With one clock all are side 0.
ghost use Rattle.std.specs.Prelude.{◌≡◌};
ghost use Rattle.rules.specs.Crossing.{gate_for, period_on};
ghost use Rattle.problem.specs.Net.{one_net, weight_on};

use crate::Problem;
use timing::{Clocks, Register};

#[derive(Clone, Copy)]
pub struct Net {
    pub problem: Problem,
    pub clocks: Clocks,
}

impl Net {
    #[tactic(auto, unfolding(crate::specs::Net::one_net))]
    pub fn one_clock(p: Problem) -> Net
        ensures { result ≡ one_net p }
    {
        Net {
            problem: p,
            clocks: Clocks::one(p.elements.period),
        }
    }

    // The period of the spans on this side, in ticks.
    #[tactic(auto, unfolding(rules::specs::Crossing::period_on))]
    pub fn period(self, side: usize) -> u16
        ensures { result ≡ period_on self.problem.elements self.clocks side }
    {
        if self.clocks.fifos == 0 || side == 0 {
            self.problem.elements.period
        } else {
            self.clocks.period
        }
    }

    // What a span on this side counts in the ranking.
    #[tactic(auto, unfolding(crate::specs::Net::weight_on))]
    pub fn weight(self, side: usize) -> u32
        ensures { result ≡ weight_on self.problem.elements self.clocks side }
    {
        if self.clocks.fifos == 0 {
            1
        } else {
            u32::from(self.period(side))
        }
    }

    // What closes a span, and starts the next, with this code: the FIFO for 8, where there is one, else the register.
    #[tactic(auto, unfolding(rules::specs::Crossing::gate_for, rules::specs::Crossing::is_fifo))]
    pub fn gate(self, code: u16) -> Register
        ensures { result ≡ gate_for self.problem.elements self.clocks code }
    {
        if self.clocks.fifos != 0 && code == 8 {
            self.clocks.fifo
        } else {
            self.problem.elements.register
        }
    }
}
