// Reads a script, word by word and number by number.
ghost use Rattle.std.specs.Prelude.{◌+◌, ◌^◌, ◌<◌, ◌≤◌, IfOk, IfSome, length};

use crate::fault::ScriptFault;

// What is still to be read, and the number, from 1, of the line that it starts in: where a word or a number was read, or none was there, its line.
#[derive(Clone, Copy)]
pub struct Script<'a> {
    rest: &'a [u8],
    line: usize,
    ghost counted: { line + length rest.now < 2 ^ 64 },
}

// The number that a word spells in decimal, or the largest of 32 bits in place of a larger one.
fn spelt(word: &[u8]) -> Option<u32> {
    let mut value: u32 = 0;
    for byte in word {
        match *byte {
            b'0'..=b'9' => {
                let digit = u32::from(*byte - b'0');
                value = value.saturating_mul(10).saturating_add(digit);
            }
            _ => return None,
        }
    }
    Some(value)
}

impl<'a> Script<'a> {
    pub fn new(text: &'a [u8]) -> Script<'a> {
        Script {
            rest: text,
            line: 1,
        }
    }

    pub fn line(&self) -> usize {
        self.line
    }

    // Passes spaces, line ends and comments.
    fn skip(&mut self) {
        let mut comment = false;
        while let Some((byte, rest)) = self.rest.split_first() {
            match *byte {
                b'#' => comment = true,
                b'\n' => {
                    comment = false;
                    self.line += 1;
                }
                byte if b' ' < byte && !comment => return,
                _ => {}
            }
            self.rest = rest;
        }
    }

    // The next word, up to a space, a line end or a comment.
    pub fn word(&mut self) -> Option<&'a [u8]>
        ensures { IfSome result (λ word. 0 < length word.now) }
    {
        self.skip();
        let rest = self.rest;
        let end = rest
            .iter()
            .position(|byte| *byte <= b' ' || *byte == b'#')
            .unwrap_or(rest.len());
        if end == 0 {
            return None;
        }
        let (word, rest) = rest.split_at(end);
        self.rest = rest;
        Some(word)
    }

    // The next number, at most `most`.
    pub fn number_to(&mut self, most: u32) -> Result<u32, ScriptFault>
        ensures { IfOk result (λ value. value ≤ most) }
    {
        let value = self.word().and_then(spelt).ok_or(ScriptFault::NoNumber)?;
        if value <= most {
            Ok(value)
        } else {
            Err(ScriptFault::TooLarge)
        }
    }

    // The next number, of this type.
    pub fn number<T: TryFrom<u32>>(&mut self) -> Result<T, ScriptFault>
    where
        T::Error: Drop,
    {
        T::try_from(self.number_to(u32::MAX)?).map_err(|_| ScriptFault::TooLarge)
    }
}
