// Why a job is refused while it is read.
ghost use Rattle.std.specs.Prelude.{◌≡◌};
ghost use Rattle.numbers.specs.Runs.{fault_number};

#[derive(Clone, Copy, Debug, PartialEq, Eq)]
pub enum JobFault {
    // a side that no plan has
    Grid,
    // a mark above 15
    Mark,
    // over six buffers
    Count,
    // no number of the job, one that is too large, or bytes left over
    Bytes,
    // over 128 cells
    Size,
}

impl JobFault {
    // Document 01's number of the refusal.
    pub fn number(self) -> u16
        ensures { result ≡ fault_number self }
    {
        match self {
            JobFault::Grid => 1,
            JobFault::Mark => 3,
            JobFault::Count => 4,
            JobFault::Bytes => 15,
            JobFault::Size => 16,
        }
    }
}
