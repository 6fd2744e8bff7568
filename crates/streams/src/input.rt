// Input, up to a lent room.
ghost use Rattle.std.specs.Prelude.{◌<◌, length, take, IfNone};
ghost use Rattle.std.specs.Io.KnownBytes.{Consumes, IsAtEnd};
ghost use Rattle.io.specs.Counts.{IsPrefixLen};

use crate::INTERRUPTIONS;
use std::io::{Error, ErrorKind, Read};

// So many bytes stand at the start of the room; a failed read, which had this error, came after them.
// No `Result`: the clauses `within` and `bytes` hold of what came before a failed read too.
#[derive(Clone, Copy)]
pub struct Input {
    pub bytes: usize,
    pub failed: Option<Error>,
}

// Reads until the room is full or the input ends. A read may give fewer bytes than asked for; an interrupted one is tried again.
pub fn read_input<R: Read>(input: &mut R, space: &mut [u8]) -> Input
    ensures within { IsPrefixLen result.bytes space.new }
    ensures bytes { Consumes (R.remaining input.old) (R.remaining input.new) (take result.bytes space.new) }
    ensures end { IfNone result.failed (result.bytes < length space.new → IsAtEnd (R.remaining input.new)) }
{
    let mut done = 0;
    let mut left = INTERRUPTIONS;
    while done < space.len() {
        match input.read(&mut space[done..]) {
            Ok(0) => break,
            Ok(more) => done += more,
            Err(error) if error.kind() == ErrorKind::Interrupted && 0 < left => left -= 1,
            Err(error) => {
                return Input {
                    bytes: done,
                    failed: Some(error),
                };
            }
        }
    }
    Input {
        bytes: done,
        failed: None,
    }
}
