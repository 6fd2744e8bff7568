// Runs many jobs through the route printer's function. Standard input has a case a line: its label, a colon and the
// job's bytes in decimal; it has fewer than 65,536 bytes. Standard output has each label and what is printed for its job.
// A failed read or write ends the program with a line on standard error.
#![tactic(auto)]

mod lines;

use lines::Line;
use printer::write_answer;
use std::io::{Result, Write};
use streams::{fail, read_input, write_text};

const JOB: usize = 256;

// Runs the cases, and writes the answer to the job of each line that has ended.
fn run<W: Write>(out: &mut W, cases: &[u8], job: &mut [u8]) -> Result<()> {
    let mut line = Line::START;
    for byte in cases {
        line = line.next(out, *byte, job)?;
        if *byte == b'\n' {
            write_answer(out, &job[..line.bytes().min(job.len())])?;
            line = Line::START;
        }
    }
    Ok(())
}

fn main(rt: HostRuntime) {
    let mut cases = io::large_buffer();
    let mut job = [0u8; JOB];
    let input = read_input(&mut rt.stdin(), &mut cases);
    if let Some(error) = input.failed {
        fail(&mut rt.stderr(), b"job_cases: standard input", error);
        return;
    }
    let n = input.bytes;
    let written = if cases.len() <= n {
        write_text(&mut rt.stdout(), b"the input has 65,536 bytes or more\n")
    } else {
        run(&mut rt.stdout(), &cases[..n], &mut job)
    };
    if let Err(error) = written {
        fail(&mut rt.stderr(), b"job_cases: standard output", error);
    }
}
