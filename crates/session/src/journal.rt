// The journal: four bytes a move, unused bytes zero. Document 01: the history.
ghost use Rattle.std.specs.Prelude.{◌≡◌, ◌+◌, ◌≤◌, length};
ghost use Rattle.session.specs.Journal.{journal_bytes, entry_bytes, cleared, entry_at, written_entry};

// Bytes of the journal that are used.
pub const JOURNAL_BYTES: usize = 1024;

// Bytes of one entry.
pub const ENTRY_BYTES: usize = 4;

// One move: its cell, the marks there before it, its own marks.
#[derive(Clone, Copy)]
pub struct Entry {
    pub cell: u16,
    pub old: u8,
    pub new: u8,
}

// The used bytes become 0.
#[tactic(auto, unfolding(crate::specs::Journal::cleared))]
pub fn clear_journal(journal: &mut [u8])
    requires { journal_bytes ≤ length journal.old }
    ensures { journal.new ≡ cleared journal.old }
{
    journal[..JOURNAL_BYTES].fill(0);
}

// The entry at this byte.
#[tactic(auto, unfolding(crate::specs::Journal::entry_at))]
pub fn read_entry(journal: &[u8], at: usize) -> Entry
    requires { at + entry_bytes ≤ length journal.now }
    ensures { result ≡ entry_at journal.now at }
{
    Entry {
        cell: u16::from_le_bytes([journal[at], journal[at + 1]]),
        old: journal[at + 2],
        new: journal[at + 3],
    }
}

// The entry's four bytes are written at this byte.
#[tactic(auto, unfolding(crate::specs::Journal::entry_of, crate::specs::Journal::written_entry))]
pub fn write_entry(journal: &mut [u8], at: usize, entry: Entry)
    requires { at + entry_bytes ≤ length journal.old }
    ensures { journal.new ≡ written_entry journal.old at entry }
{
    let [low, high] = entry.cell.to_le_bytes();
    journal[at..at + ENTRY_BYTES].copy_from_slice(&[low, high, entry.old, entry.new]);
}
