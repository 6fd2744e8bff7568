// Records as outsiders lend them: numbers that nothing has checked.
use timing::Elements;

#[derive(Clone, Copy)]
pub struct WireRecord {
    pub resistance: u16,
    pub load: u16,
}

#[derive(Clone, Copy, Default)]
pub struct RegisterRecord {
    pub resistance: u16,
    pub delay: u16,
    pub load: u16,
    pub setup: u16,
}

#[derive(Clone, Copy, Default)]
pub struct BufferRecord {
    pub resistance: u16,
    pub delay: u16,
    pub load: u16,
}

// All tables but the buffers, in the job's order.
#[derive(Clone, Copy)]
pub struct Tables {
    pub register: RegisterRecord,
    pub horizontal: WireRecord,
    pub vertical: WireRecord,
    pub period: u16,
    pub skew: u16,
    pub limit: u16,
}

// What a net between two clocks has beside its tables, whose period is the sink's: the source's period and the FIFO. Document 02, C-15.
#[derive(Clone, Copy, Default)]
pub struct Crossing {
    pub period: u16,
    pub fifo: RegisterRecord,
}

// A lent list of buffers: its length, and its first six records, with the record of zeros past its end.
#[derive(Clone, Copy)]
pub struct BufferList {
    pub n: usize,
    pub items: [BufferRecord; Elements::BUFFERS_MAX],
}
