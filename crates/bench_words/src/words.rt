// Buffers and clocks read from words.
ghost use Rattle.std.specs.Prelude.{◌≡◌, length, get_or, ◌<◌, ◌≤◌};
ghost use Rattle.job.specs.Fields.{buffer_record_at};
ghost use Rattle.bench_words.specs.Words.{buffers_in};
ghost use Rattle.bench_words.specs.Crossed.{clock_numbers, crossing_in};

use answers::{BufferList, BufferRecord, Crossing, RegisterRecord};

// The word at i, or 0 past the end.
fn word(words: &[u16], i: usize) -> u16
    ensures { result ≡ get_or words.now i 0 }
{
    words.get(i).copied().unwrap_or(0)
}

// The buffer at index i, from three words each.
#[tactic(auto, unfolding(job::specs::Fields::buffer_record_at))]
fn read_buffer(words: &[u16], i: usize) -> BufferRecord
    requires { i < 6 }
    ensures { result ≡ buffer_record_at words.now i }
{
    BufferRecord {
        resistance: word(words, 3 * i),
        delay: word(words, 3 * i + 1),
        load: word(words, 3 * i + 2),
    }
}

#[tactic(auto, unfolding(crate::specs::Words::buffers_in, job::specs::Fields::buffer_list_of))]
pub fn read_buffers(words: &[u16]) -> BufferList
    ensures { result ≡ buffers_in words.now }
{
    BufferList {
        n: words.len() / 3,
        items: [
            read_buffer(words, 0),
            read_buffer(words, 1),
            read_buffer(words, 2),
            read_buffer(words, 3),
            read_buffer(words, 4),
            read_buffer(words, 5),
        ],
    }
}

// The source's period and the FIFO, from five words.
#[tactic(auto, unfolding(crate::specs::Crossed::crossing_in))]
pub fn read_crossing(words: &[u16]) -> Crossing
    requires { clock_numbers ≤ length words.now }
    ensures { result ≡ crossing_in words.now }
{
    Crossing {
        period: words[0],
        fifo: RegisterRecord {
            resistance: words[1],
            delay: words[2],
            load: words[3],
            setup: words[4],
        },
    }
}
