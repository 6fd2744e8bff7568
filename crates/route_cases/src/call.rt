// One route call and the line printed of it: its label, number, registers, steps, latency and spare half-ticks, the cell and code of
// each visit, then what became of the scratch words and of the visits' other words.
use answers::{Answer, Numbered};
use report::{Told, write_fault, write_words};
use route_call::{Call, ask};
use std::io::{Result, Write};
use streams::{write_number, write_text};

// What all lent words hold before a call.
const FILL: u16 = 9;

const SCRATCH: usize = 1600;

const VISITS: usize = 16;

fn all_are(words: &[u16], value: u16) -> bool {
    words.iter().all(|word| *word == value)
}

// kept: no word has changed; zero: the first 256 of each cell are zero, and no other has changed.
fn write_scratch<W: Write>(out: &mut W, scratch: &[u16], cells: usize) -> Result<()> {
    if all_are(scratch, FILL) {
        return write_text(out, b" kept");
    }
    let used = 256 * cells.min(1024);
    let (used, others) = scratch.split_at(used.min(scratch.len()));
    if all_are(used, 0) && all_are(others, FILL) {
        write_text(out, b" zero")
    } else {
        write_text(out, b" changed")
    }
}

// kept: none of these words has changed.
fn write_others<W: Write>(out: &mut W, others: &[u16]) -> Result<()> {
    if all_are(others, FILL) {
        write_text(out, b" kept")
    } else {
        write_text(out, b" changed")
    }
}

// The line of an answer, and of the words that it was lent.
fn write_line<W: Write>(
    out: &mut W,
    label: &[u8],
    answer: Answer,
    cells: usize,
    scratch: &[u16],
    visits: &[u16],
) -> Result<()> {
    let (filled, others) = visits.split_at(answer.filled().min(visits.len()));
    write_text(out, label)?;
    write_text(out, b":")?;
    write_number(out, answer.number() as u64)?;
    answer.figures().write(out)?;
    write_fault(out, answer)?;
    write_words(out, filled)?;
    write_scratch(out, scratch, cells)?;
    write_others(out, others)?;
    write_text(out, b"\n")
}

// Calls, and writes the line.
pub fn run<W: Write>(out: &mut W, label: &[u8], plan: &[u8], c: Call) -> Result<()> {
    let mut scratch = [FILL; SCRATCH];
    let mut visits = [FILL; VISITS];
    let answer = ask(plan, c, &mut scratch, &mut visits);
    write_line(out, label, answer, plan.len(), &scratch, &visits)
}
