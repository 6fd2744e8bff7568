// Reads a job from standard input and writes the text of its answer: document 01, "The job and its printed sheet".
// What it writes is `printed` of the bytes read (crates/printing). After a failed read it writes
// nothing but a line on standard error.
#![tactic(auto)]

use printer::{read_deciding, write_answer};
use streams::fail;

// The bytes of input that decide; `read_deciding` asks for just so many.
const INPUT: usize = 225;

fn main(rt: HostRuntime) {
    let mut space = [0u8; INPUT];
    let input = read_deciding(&mut rt.stdin(), &mut space);
    if let Some(error) = input.failed {
        fail(&mut rt.stderr(), b"route_printer: standard input", error);
        return;
    }
    let n = input.bytes;
    if let Err(error) = write_answer(&mut rt.stdout(), &space[..n]) {
        fail(&mut rt.stderr(), b"route_printer: standard output", error);
    }
}
