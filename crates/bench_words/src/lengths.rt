// The lengths of what is lent to an entry.
ghost use Rattle.std.specs.Prelude.{◌≡◌};
ghost use Rattle.bench_words.specs.Words.{inputs_right, lengths_right};
ghost use Rattle.bench_words.specs.Crossed.{crossing_lengths_right};

use job::TABLE_NUMBERS;

// What is returned where a lent list has a wrong length; no call here has a number 15.
pub const WRONG_LENGTH: u16 = 15;

// How many words tell an answer, a verdict or a reason.
const RESULTS: usize = 5;

// How many words the source's period and the FIFO have.
const CLOCK_NUMBERS: usize = 5;

// How many words tell an answer between two clocks.
const CROSSING_RESULTS: usize = 6;

// Eleven words of tables, three words a buffer.
#[tactic(auto, unfolding(crate::specs::Words::inputs_right))]
fn inputs_right(tables: usize, buffers: usize) -> bool
    ensures { result ≡ inputs_right tables buffers }
{
    tables == TABLE_NUMBERS && buffers % 3 == 0
}

// And five words for what is told.
#[tactic(auto, unfolding(crate::specs::Words::lengths_right))]
pub fn lengths_right(tables: usize, buffers: usize, results: usize) -> bool
    ensures { result ≡ lengths_right tables buffers results }
{
    results == RESULTS && inputs_right(tables, buffers)
}

// And five words of the clocks, six for what is told.
#[tactic(auto, unfolding(crate::specs::Crossed::crossing_lengths_right))]
pub fn crossing_lengths_right(tables: usize, clocks: usize, buffers: usize, results: usize) -> bool
    ensures { result ≡ crossing_lengths_right tables clocks buffers results }
{
    clocks == CLOCK_NUMBERS && results == CROSSING_RESULTS && inputs_right(tables, buffers)
}
