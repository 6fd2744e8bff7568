// Both sets of labels: those of registers, with the source's, and those of FIFOs.
ghost use Rattle.std.specs.Prelude.{◌≡◌};
ghost use Rattle.labels.specs.Idle.{no_idle};
ghost use Rattle.labels.specs.Both.{BothAsk, ArrivedBoth};

use crate::arrive;
use layout::{EXITS, LABELS};

// Whether gates of a code close a span no quicker than those of the other: where a cell is a seed of both, they add nothing.
#[derive(Clone, Copy)]
pub struct Idle {
    pub registers: bool,
    pub fifos: bool,
}

pub fn no_idle() -> Idle
    ensures { result ≡ no_idle }
{
    Idle {
        registers: false,
        fifos: false,
    }
}

#[derive(Clone, Copy)]
pub struct BothArrivals {
    pub at: usize,
    pub exit: usize,
    pub active: usize,
}

// `arrive` for the labels of registers, `count` in all, and for those of FIFOs, `exits` in all.
pub fn arrive_both(
    scratch: &mut [u16],
    n: usize,
    at: usize,
    count: usize,
    exit: usize,
    exits: usize,
    weight: u32,
    steps: u32,
    active: usize,
    idle: Idle,
) -> BothArrivals
    requires { BothAsk n at count exit exits active scratch.old }
    ensures { ArrivedBoth n idle at count exit exits weight steps scratch.old scratch.new result.at result.exit result.active }
{
    let near = arrive(
        scratch,
        n,
        n * LABELS,
        7,
        idle.registers,
        at,
        count,
        weight,
        steps,
        active,
    );
    if exit == exits {
        return BothArrivals {
            at: near.at,
            exit,
            active: near.active,
        };
    }
    let far = arrive(
        scratch,
        n,
        n * EXITS,
        8,
        idle.fifos,
        exit,
        exits,
        weight,
        steps,
        near.active,
    );
    BothArrivals {
        at: near.at,
        exit: far.at,
        active: far.active,
    }
}
