// The answer of a route call, with one clock or between two.
ghost use Rattle.std.specs.Prelude.{◌≤◌};

use crate::words::write_left;
use answers::{CrossingFigures, Fault, Figures, Numbered, Refusal, RouteAnswer, RouteFigures};
use bench_words::fault_number;
use std::io::{Result, Write};
use streams::{write_digits, write_number, write_text};
use timing::slack_magnitude;

// Figures as they are printed, and the refusals that may stand in their place.
pub trait Told: RouteFigures {
    fn write<W: Write>(self, out: &mut W) -> Result<()>;

    // What refusal 4 names, in the order of a call with its clocks; of any other nothing.
    fn write_refusal<W: Write>(out: &mut W, refusal: Refusal) -> Result<()>;
}

impl Told for Figures {
    // Registers, steps, latency and spare half-ticks.
    fn write<W: Write>(self, out: &mut W) -> Result<()> {
        write_number(out, self.registers as u64)?;
        write_number(out, self.steps as u64)?;
        write_number(out, self.latency as u64)?;
        write_slack(out, self.slack)
    }

    fn write_refusal<W: Write>(out: &mut W, refusal: Refusal) -> Result<()> {
        write_element(out, refusal)
    }
}

impl Told for CrossingFigures {
    // Registers on the source's side and on the sink's, steps, latency and spare half-ticks.
    fn write<W: Write>(self, out: &mut W) -> Result<()> {
        write_number(out, self.source as u64)?;
        write_number(out, self.sink as u64)?;
        write_number(out, self.steps as u64)?;
        write_number(out, self.latency as u64)?;
        write_slack(out, self.slack)
    }

    fn write_refusal<W: Write>(out: &mut W, refusal: Refusal) -> Result<()> {
        write_named(out, refusal, 2)
    }
}

// What a refused answer names; of any other answer nothing.
pub fn write_fault<F: Told, W: Write>(out: &mut W, answer: RouteAnswer<F>) -> Result<()> {
    match answer {
        RouteAnswer::Refused(refusal) => F::write_refusal(out, refusal),
        _ => Ok(()),
    }
}

// The line of a call: its name, its number, a session record's depth, the fault and the figures of its answer, then what it left of the words that it was lent.
pub fn write_answer<F: Told, W: Write>(
    out: &mut W,
    name: &[u8],
    answer: RouteAnswer<F>,
    depth: u16,
    visits: &[u16],
    scratch: &[u16],
) -> Result<()> {
    write_call(out, name, answer.number(), depth)?;
    write_fault(out, answer)?;
    write_text(out, b" figures")?;
    answer.figures().write(out)?;
    write_left(out, visits, answer.filled(), scratch)
}

// A space and a spare figure in decimal, with a minus sign below zero.
pub fn write_slack<W: Write>(out: &mut W, z: i32) -> Result<()> {
    if z < 0 {
        write_text(out, b" -")?;
        return write_digits(out, slack_magnitude(z) as u64);
    }
    write_number(out, slack_magnitude(z) as u64)
}

// Of refusal 4 the word `fault`, the fault's place in the order of a call with so many clocks and a buffer's place in its list;
// of any other refusal nothing.
pub fn write_named<W: Write>(out: &mut W, refusal: Refusal, clocks: u32) -> Result<()>
    requires { clocks ≤ 2 }
{
    let Refusal::Element(fault) = refusal else {
        return Ok(());
    };
    write_text(out, b" fault")?;
    if let Fault::Buffer(place) = fault {
        write_number(out, fault_number(Fault::Buffer(1), clocks) as u64)?;
        return write_number(out, place as u64);
    }
    write_number(out, fault_number(fault, clocks) as u64)
}

// The same with one clock.
pub fn write_element<W: Write>(out: &mut W, refusal: Refusal) -> Result<()> {
    write_named(out, refusal, 1)
}

// A call's name, its number and a session record's depth.
pub fn write_call<W: Write>(out: &mut W, name: &[u8], answer: u16, depth: u16) -> Result<()> {
    write_text(out, name)?;
    write_number(out, answer as u64)?;
    write_text(out, b" depth")?;
    write_number(out, depth as u64)
}
