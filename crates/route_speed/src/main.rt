// Routes on plans of the largest size, 32 by 32, and prints number, registers and steps of each. tests/speed times it.
#![tactic(auto)]

ghost use Rattle.std.specs.Prelude.{◌≡◌, length};

use answers::{BufferList, BufferRecord, Numbered, RegisterRecord, Tables, WireRecord, read_list};
use question::Asking;
use router::route_asked;
use std::io::{Result, Write};
use streams::{fail, write_number, write_text};

const SIDE: usize = 32;

const CELLS: usize = 1024;
// 256 a cell
const SCRATCH: usize = 262144;
// two for each cell
const VISITS: usize = 2048;

const WIRE: WireRecord = WireRecord {
    resistance: 2,
    load: 3,
};

const REGISTER: RegisterRecord = RegisterRecord {
    resistance: 1,
    delay: 2,
    load: 1,
    setup: 1,
};

fn tables(period: u16) -> Tables {
    Tables {
        register: REGISTER,
        horizontal: WIRE,
        vertical: WIRE,
        period,
        skew: 0,
        limit: 63,
    }
}

fn buffer(resistance: u16, delay: u16, load: u16) -> BufferRecord {
    BufferRecord {
        resistance,
        delay,
        load,
    }
}

// Six buffers, from small to large.
fn buffers() -> BufferList {
    BufferList {
        n: 6,
        items: [
            buffer(6, 1, 1),
            buffer(5, 2, 2),
            buffer(4, 3, 3),
            buffer(3, 4, 4),
            buffer(2, 5, 5),
            buffer(1, 6, 6),
        ],
    }
}

// Routes from cell 0 to the sink, and prints the line.
fn time<W: Write>(out: &mut W, label: &[u8], plan: &[u8], period: u16, sink: u16) -> Result<()> {
    let mut scratch = [0u16; SCRATCH];
    let mut visits = [0u16; VISITS];
    let asking = Asking {
        plan,
        width: 32,
        height: 32,
        tables: tables(period),
        buffers: read_list(buffers()),
        source: 0,
        sink,
    };
    let answer = route_asked(&asking, &mut scratch, &mut visits);
    let f = answer.figures();
    write_text(out, label)?;
    write_text(out, b":")?;
    write_number(out, answer.number() as u64)?;
    write_number(out, f.registers as u64)?;
    write_number(out, f.steps as u64)?;
    write_text(out, b"\n")
}

// Taps everywhere and no cut, corner to corner.
fn open<W: Write>(out: &mut W) -> Result<()> {
    let plan = [2u8; CELLS];
    time(out, b"open", &plan, 100, 1023)
}

// The marks of a cell of the serpentine: a tap, and the wire below is cut but at the row's end where the path turns.
fn marks(row: usize, column: usize) -> u8 {
    let end = if row % 2 == 0 { SIDE - 1 } else { 0 };
    if row == SIDE - 1 || column == end {
        2
    } else {
        10
    }
}

// One path through all 1,024 cells, row by row. The `ensures` is what lending the array as a slice needs.
fn winding() -> [u8; CELLS]
    ensures { 1024 ≡ length result }
{
    let mut plan = [2u8; CELLS];
    for (i, cell) in plan.iter_mut().enumerate() {
        *cell = marks(i / SIDE, i % SIDE);
    }
    plan
}

// From the path's first cell to its last: many short spans, then one long one.
fn serpentine<W: Write>(out: &mut W) -> Result<()> {
    let plan = winding();
    time(out, b"serpentine", &plan, 100, 992)?;
    time(out, b"serpentine in one span", &plan, 30000, 992)
}

// All lines.
fn all<W: Write>(out: &mut W) -> Result<()> {
    open(out)?;
    serpentine(out)
}

fn main(rt: HostRuntime) {
    if let Err(error) = all(&mut rt.stdout()) {
        fail(&mut rt.stderr(), b"route_speed: standard output", error);
    }
}
