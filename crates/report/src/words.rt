// Lent words.
ghost use Rattle.std.specs.Prelude.{◌≡◌, ◌<◌, length};
ghost use Rattle.report.specs.Runs.{EqualRun, Zeros};

use std::io::{Result, Write};
use streams::{write_number, write_text};

// All bytes or words, a space before each.
pub fn write_words<W: Write, T: Copy + Into<u64>>(out: &mut W, words: &[T]) -> Result<()> {
    for word in words {
        write_number(out, (*word).into())?;
    }
    Ok(())
}

// Where the run of words equal to the one at `start` ends.
pub fn run_end(words: &[u16], start: usize) -> usize
    requires { start < length words.now }
    ensures { EqualRun words.now start result }
{
    for i in start + 1..words.len() {
        if words[i] != words[start] {
            return i;
        }
    }
    words.len()
}

// How many words from the first on are zero.
fn zeros(words: &[u16]) -> usize
    ensures { Zeros words.now result }
{
    match words.first() {
        Some(0) => run_end(words, 0),
        _ => 0,
    }
}

// The end of a call's line: how many scratch words it zeroed.
pub fn write_zeroed<W: Write>(out: &mut W, scratch: &[u16]) -> Result<()> {
    write_text(out, b" zeroed")?;
    write_number(out, zeros(scratch) as u64)?;
    write_text(out, b"\n")
}

// The same after the first `filled` visit words, which the call filled.
pub fn write_left<W: Write>(
    out: &mut W,
    visits: &[u16],
    filled: usize,
    scratch: &[u16],
) -> Result<()> {
    write_text(out, b" visits")?;
    write_words(out, &visits[..filled.min(visits.len())])?;
    write_zeroed(out, scratch)
}

// A run: its word, and after a star how many there are if there is more than one.
fn write_run<W: Write>(out: &mut W, word: u16, times: usize) -> Result<()> {
    write_number(out, word as u64)?;
    if times <= 1 {
        return Ok(());
    }
    write_text(out, b" *")?;
    write_number(out, times as u64)
}

// All words, run by run. `run_end` says what a run is (`EqualRun`), which `chunk_by` would not promise.
pub fn write_runs<W: Write>(out: &mut W, words: &[u16]) -> Result<()> {
    let mut start = 0;
    while start < words.len() {
        let end = run_end(words, start);
        write_run(out, words[start], end - start)?;
        start = end;
    }
    Ok(())
}
