// The undo trail: rows of the table as they were before a layer changed them, in the scratch words that nothing else needs: from `layout::TRAIL` on, then between the arrival row and `layout::LABELS`.
// An entry is a slot: the row, the cell, the layer in two words. The entries are a ring: when it is full the oldest is forgotten.
#![tactic(auto)]

ghost use Rattle.std.specs.Prelude.{◌≡◌, ◌+◌, ◌*◌, ◌≤◌, ◌<◌, length};
ghost use Rattle.layout.specs.Layout.{slot_words};
ghost use Rattle.trail.specs.Trail.{no_trail, new_trail, stamped, slots_of, slot_of, place_of, stamp_of, TrailAsks, RoomMade, Saved, Restored, Rewound};

use costs::ROW;
use layout::{FAR_WORDS, LABELS, NEAR_WORDS, SLOT, SLOT_CELL, SLOT_HIGH, SLOT_LOW, TRAIL};

// `room` slots, of which `count` are in use, the oldest at `start`. Layers up to `low` cannot be undone. `stamp` is the layer that is being made.
#[derive(Clone, Copy)]
pub struct Trail {
    pub room: usize,
    pub start: usize,
    pub count: usize,
    pub low: u32,
    pub stamp: u32,
}

// A trail without slots.
pub fn no_trail() -> Trail
    ensures { result ≡ no_trail }
{
    Trail {
        room: 0,
        start: 0,
        count: 0,
        low: 0,
        stamp: 0,
    }
}

// An empty trail with all the slots that there are.
pub fn new_trail(n: usize) -> Trail
    requires { (0 < n) × (n ≤ 1024) }
    ensures { result ≡ new_trail n }
{
    Trail {
        room: n * FAR_WORDS / SLOT + (n * NEAR_WORDS - ROW) / SLOT,
        start: 0,
        count: 0,
        low: 0,
        stamp: 0,
    }
}

// The trail while this layer is made.
pub fn stamped(trail: Trail, stamp: u32) -> Trail
    ensures { result ≡ stamped trail stamp }
{
    Trail { stamp, ..trail }
}

// The slot of entry i, the oldest being entry 0.
fn slot(trail: Trail, i: usize) -> usize
    requires { (trail.start ≤ trail.room) × ((trail.room < 65536) × (i ≤ trail.room)) }
    ensures { result ≡ slot_of trail i }
{
    let at = trail.start + i;
    if at < trail.room { at } else { at - trail.room }
}

// Where the words of entry i start.
fn place(n: usize, trail: Trail, i: usize) -> usize
    requires { (trail.start ≤ trail.room) × ((trail.room ≤ slots_of n) × ((n ≤ 1024) × (i < trail.room))) }
    ensures { result ≡ place_of n trail i }
{
    let at = slot(trail, i);
    if at * SLOT + SLOT <= n * FAR_WORDS {
        n * TRAIL + at * SLOT
    } else {
        n * LABELS - (trail.room - at) * SLOT
    }
}

// The layer of the entry whose words start here.
fn stamp_of(scratch: &[u16], at: usize) -> u32
    requires { (at < 1048576) × (at + slot_words ≤ length scratch.now) }
    ensures { result ≡ stamp_of scratch.now at }
{
    scratch[at + SLOT_LOW] as u32 + scratch[at + SLOT_HIGH] as u32 * 65536
}

// A full trail forgets its oldest entry.
fn make_room(scratch: &[u16], n: usize, trail: Trail) -> Trail
    requires { TrailAsks n scratch.now trail × (0 < trail.room) }
    ensures { RoomMade n scratch.now trail result }
{
    if trail.count < trail.room {
        return trail;
    }
    let oldest = stamp_of(scratch, place(n, trail, 0));
    Trail {
        start: slot(trail, 1),
        count: trail.count - 1,
        low: oldest,
        ..trail
    }
}

// The cell's row is saved, before the layer being made changes it.
pub fn save(scratch: &mut [u16], n: usize, cell: usize, trail: Trail) -> Trail
    requires { TrailAsks n scratch.old trail × (cell < n) }
    ensures { Saved n cell scratch.old trail scratch.new result }
{
    let stamp = trail.stamp;
    if trail.room == 0 {
        return Trail {
            low: stamp,
            stamp,
            ..no_trail()
        };
    }
    let kept = make_room(scratch, n, trail);
    let at = place(n, kept, kept.count);
    scratch.copy_within(cell * ROW..cell * ROW + ROW, at);
    scratch[at + SLOT_CELL] = cell as u16;
    scratch[at + SLOT_LOW] = (stamp % 65536) as u16;
    scratch[at + SLOT_HIGH] = (stamp / 65536) as u16;
    Trail {
        count: kept.count + 1,
        stamp,
        ..kept
    }
}

// The newest entry's row is put back.
fn restore(scratch: &mut [u16], n: usize, trail: Trail) -> Trail
    requires { TrailAsks n scratch.old trail × (0 < trail.count) }
    ensures { Restored n scratch.old trail scratch.new result }
{
    let count = trail.count - 1;
    let at = place(n, trail, count);
    let cell = scratch[at + SLOT_CELL] as usize;
    scratch.copy_within(at..at + ROW, cell * ROW);
    Trail { count, ..trail }
}

// The layers above this one are undone.
pub fn rewind(scratch: &mut [u16], n: usize, trail: Trail, layer: u32) -> Trail
    requires { TrailAsks n scratch.old trail }
    ensures { Rewound n layer scratch.old trail scratch.new result }
{
    let mut left = trail;
    while 0 < left.count {
        let at = place(n, left, left.count - 1);
        if stamp_of(scratch, at) <= layer {
            return left;
        }
        left = restore(scratch, n, left);
    }
    left
}
