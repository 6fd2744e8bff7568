// What a program says of an input or output that failed.
ghost use Rattle.std.specs.Prelude.{◌≤◌, length};

use std::io::{Cursor, Error, Result, Write};

// Longer texts are cut.
const ROOM: usize = 256;

// Writes a line: what failed, as the caller names it, a colon and the error's text. A line that cannot be written is left out.
pub fn fail<W: Write>(err: &mut W, what: &[u8], error: Error) {
    let _ = write_failure(err, what, error);
}

fn write_failure<W: Write>(err: &mut W, what: &[u8], error: Error) -> Result<()> {
    let mut text = [0u8; ROOM];
    let n = print_error(error, &mut text);
    let end = if error.raw_os_error().is_some() {
        before_number(&text[..n])
    } else {
        n
    };
    err.write_all(what)?;
    err.write_all(b": ")?;
    err.write_all(&text[..end])?;
    err.write_all(b"\n")
}

// Puts the error's text at the start of the room; how many bytes it has there.
fn print_error(error: Error, room: &mut [u8]) -> usize
    ensures { result ≤ length room.new }
{
    let len = room.len();
    let mut out = Cursor::new(room);
    let _ = write!(out, "{error}");
    len.min(out.position() as usize)
}

// Where a text that ends in ` (os error 9)` has its space before the parenthesis.
fn before_number(text: &[u8]) -> usize
    ensures { result ≤ length text.now }
{
    match text.iter().rposition(|byte| *byte == b'(') {
        Some(i) => i.saturating_sub(1),
        None => text.len(),
    }
}
