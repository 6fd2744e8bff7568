// Output. Each function says why not all was written.
ghost use Rattle.std.specs.Prelude.{OnOk, ◌∷◌};
ghost use Rattle.std.specs.Io.KnownBytes.{Appends};

use crate::INTERRUPTIONS;
use std::io::{Error, ErrorKind, Result, Write};

// A write may take fewer bytes than it is given; an interrupted one is tried again. One that takes none fails.
pub fn write_text<W: Write>(out: &mut W, text: &[u8]) -> Result<()>
    ensures { OnOk result (Appends (W.contents out.old) (W.contents out.new) text.now) }
{
    let mut done = 0;
    let mut left = INTERRUPTIONS;
    while done < text.len() {
        match out.write(&text[done..]) {
            Ok(0) => {
                let message = "failed to write whole buffer";
                return Err(Error::new(ErrorKind::WriteZero, message));
            }
            Ok(took) => done += took,
            Err(error) if error.kind() == ErrorKind::Interrupted && 0 < left => left -= 1,
            Err(error) => return Err(error),
        }
    }
    Ok(())
}

// The number in decimal.
pub fn write_digits<W: Write>(out: &mut W, n: u64) -> Result<()> {
    let mut digits = [0u8; 20];
    let k = io::decimal(n, &mut digits);
    write_text(out, &digits[..k])
}

// A space and the number in decimal.
pub fn write_number<W: Write>(out: &mut W, n: u64) -> Result<()> {
    write_text(out, b" ")?;
    write_digits(out, n)
}
