// A job from an input, and the text of its answer on an output.
#![tactic(auto)]

ghost use Rattle.std.specs.Prelude.{◌≡◌, ◌<◌, length, take, IfNone, OnOk};
ghost use Rattle.std.specs.Io.KnownBytes.{Appends, Consumes, IsAtEnd};
ghost use Rattle.io.specs.Counts.{IsPrefixLen};
ghost use Rattle.job.specs.Job.{job_bytes};
ghost use Rattle.printing.specs.Printed.{printed};

use printing::print_job;
use std::io::{Read, Result, Write};
use streams::{Input, read_input, write_text};

const CELLS: usize = 128;

// 256 words a cell
const SCRATCH: usize = 32768;

const VISITS: usize = 2048;

// 46 bytes and 12 for each of 1,024 visits
const TEXT: usize = 12334;

// Reads a job. The room has the bytes that decide what is printed, whatever follows them (printing/proofs/Decides: `printed-decided`).
pub fn read_deciding<R: Read>(input: &mut R, space: &mut [u8]) -> Input
    requires { length space.old ≡ job_bytes }
    ensures within { IsPrefixLen result.bytes space.new }
    ensures bytes { Consumes (R.remaining input.old) (R.remaining input.new) (take result.bytes space.new) }
    ensures end { IfNone result.failed (result.bytes < length space.new → IsAtEnd (R.remaining input.new)) }
{
    read_input(input, space)
}

// Writes `printed` of the job's bytes (crates/printing).
pub fn write_answer<W: Write>(out: &mut W, job: &[u8]) -> Result<()>
    ensures { OnOk result (Appends (W.contents out.old) (W.contents out.new) (printed job.now)) }
{
    let mut plan = [0u8; CELLS];
    let mut scratch = [0u16; SCRATCH];
    let mut visits = [0u16; VISITS];
    let mut text = [0u8; TEXT];
    let n = print_job(job, &mut plan, &mut scratch, &mut visits, &mut text);
    write_text(out, &text[..n])
}
