// Several numbers of a job in a row.
ghost use Rattle.std.specs.Prelude.{◌≡◌, length};
ghost use Rattle.numbers.specs.Runs.{fault_number, run, run_of};

use crate::fault::JobFault;
use crate::number::read_number;

// The numbers that the job begins with, one for each word and each at most `top`, and the bytes after them. The first number above `top` gives `refusal`.
pub fn read_series<'a>(
    job: &'a [u8],
    top: u16,
    refusal: JobFault,
    words: &mut [u16],
) -> Result<&'a [u8], JobFault>
    ensures { run_of words.new result ≡ run (length words.old) top (fault_number refusal) job.now }
{
    let mut rest = job;
    for word in words.iter_mut() {
        let (value, next) = read_number(rest).ok_or(JobFault::Bytes)?;
        if top < value {
            return Err(refusal);
        }
        *word = value;
        rest = next;
    }
    Ok(rest)
}
