// The records that the numbers of a job make.
ghost use Rattle.std.specs.Prelude.{◌≡◌, ℕ, ◌*◌, ◌<◌, ◌≤◌, length, get_or, take};
ghost use Rattle.timing.specs.Ranges.{buffers_max};
ghost use Rattle.job.specs.Fields.{table_numbers, tables_of, buffer_record_at, buffer_list_of};

use answers::{BufferList, BufferRecord, RegisterRecord, Tables, WireRecord};

// How many numbers the tables have.
pub const TABLE_NUMBERS: usize = 11;

// The tables, from their eleven numbers in the job's order.
pub fn tables_of(words: &[u16]) -> Tables
    requires { table_numbers ≤ length words.now }
    ensures { result ≡ tables_of words.now }
{
    Tables {
        register: RegisterRecord {
            resistance: words[0],
            delay: words[1],
            load: words[2],
            setup: words[3],
        },
        horizontal: WireRecord {
            resistance: words[4],
            load: words[5],
        },
        vertical: WireRecord {
            resistance: words[6],
            load: words[7],
        },
        period: words[8],
        skew: words[9],
        limit: words[10],
    }
}

// The buffer at index i of `count`, from three words each; zeros past the count.
fn buffer_of(words: &[u16], count: usize, i: usize) -> BufferRecord
    requires { (count ≤ buffers_max) × (3 * count ≤ length words.now) }
    ensures { result ≡ buffer_record_at (take (3 * count) words.now) i }
{
    if count <= i {
        return BufferRecord {
            resistance: 0,
            delay: 0,
            load: 0,
        };
    }
    BufferRecord {
        resistance: words[3 * i],
        delay: words[3 * i + 1],
        load: words[3 * i + 2],
    }
}

// The list of `count` buffers, from three words each. The count stands beside the words as beside `BufferList`'s six places.
pub fn buffers_of(words: &[u16], count: usize) -> BufferList
    requires { (count ≤ buffers_max) × (3 * count ≤ length words.now) }
    ensures { result ≡ buffer_list_of count (take (3 * count) words.now) }
{
    BufferList {
        n: count,
        items: [
            buffer_of(words, count, 0),
            buffer_of(words, count, 1),
            buffer_of(words, count, 2),
            buffer_of(words, count, 3),
            buffer_of(words, count, 4),
            buffer_of(words, count, 5),
        ],
    }
}

// The words, each at most 15, as the first bytes of a plan.
pub fn copy_marks(words: &[u16], plan: &mut [u8])
    requires within { length words.now ≤ length plan.old }
    requires by_index { (k : ℕ) → k < length words.now → get_or words.now k 0 < 256 }
    ensures { take (length words.now) plan.new ≡ words.now }
{
    for (i, word) in words.iter().enumerate() {
        plan[i] = *word as u8;
    }
}
