// What a player holds beside the lent bytes and words.
use answers::{BufferList, BufferRecord, Crossing, RegisterRecord, Tables, WireRecord};
use session::Session;

// The scratch words: 512 a cell of the largest plan.
pub const SCRATCH_WORDS: usize = 524288;

// The visit words.
pub const VISIT_WORDS: usize = 2048;

// No cell, no code: what the words hold before a call.
pub const UNUSED: u16 = 65535;

// Elements of zeros.
const REGISTER: RegisterRecord = RegisterRecord {
    resistance: 0,
    delay: 0,
    load: 0,
    setup: 0,
};

const WIRE: WireRecord = WireRecord {
    resistance: 0,
    load: 0,
};

pub(crate) const BUFFER: BufferRecord = BufferRecord {
    resistance: 0,
    delay: 0,
    load: 0,
};

// The record, the lengths of plan, journal and scratch, and the tables of the next call, of one clock or two. Lengths, not slices: a later command may lend more of the same bytes.
#[derive(Clone, Copy)]
pub struct Player {
    pub session: Session,
    pub plan: usize,
    pub journal: usize,
    pub scratch: usize,
    pub tables: Tables,
    pub crossing: Crossing,
    pub list: BufferList,
}

impl Player {
    pub fn new() -> Player {
        Player {
            session: Session {
                width: 0,
                height: 0,
                depth: 0,
            },
            plan: 0,
            journal: 1024,
            scratch: SCRATCH_WORDS,
            tables: Tables {
                register: REGISTER,
                horizontal: WIRE,
                vertical: WIRE,
                period: 0,
                skew: 0,
                limit: 0,
            },
            crossing: Crossing {
                period: 0,
                fifo: REGISTER,
            },
            list: BufferList {
                n: 0,
                items: [BUFFER; 6],
            },
        }
    }
}
