// The lines that are printed. Each function says why not all was written.
use report::{write_runs, write_words};
use script::ScriptFault;
use std::io::{Result, Write};
use streams::{write_number, write_text};

// A name and the bytes.
pub fn write_bytes<W: Write>(out: &mut W, name: &[u8], bytes: &[u8]) -> Result<()> {
    write_text(out, name)?;
    write_words(out, bytes)?;
    write_text(out, b"\n")
}

// A name and all words, run by run.
pub fn write_line<W: Write>(out: &mut W, name: &[u8], words: &[u16]) -> Result<()> {
    write_text(out, name)?;
    write_runs(out, words)?;
    write_text(out, b"\n")
}

// What is wrong with the script, and in which line.
pub fn write_bad<W: Write>(out: &mut W, line: usize, fault: ScriptFault) -> Result<()> {
    write_text(out, b"bad script: line")?;
    write_number(out, line as u64)?;
    write_text(out, b": ")?;
    match fault {
        ScriptFault::NoNumber => write_text(out, b"a number is missing\n"),
        ScriptFault::TooLarge => write_text(out, b"a number is too large\n"),
        ScriptFault::Unknown => write_text(out, b"this word is no command\n"),
    }
}

pub fn write_too_long<W: Write>(out: &mut W) -> Result<()> {
    write_text(out, b"bad script: it has 65,536 bytes or more\n")
}
