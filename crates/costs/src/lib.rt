// What a step or a gate costs at each load, as a row of 64 words, one a load. Past the load limit it costs all that a word can hold.
// The rows of all elements are one array, which is lent to the search.
#![tactic(auto)]

ghost use Rattle.std.specs.Prelude.{ℕ, ◌+◌, ◌≤◌, ◌<◌, ◌≡◌, cond, leb, length, get_or};
ghost use Rattle.timing.specs.Elements.{WireInRange, DriverInRange, RegisterInRange};
ghost use Rattle.timing.specs.Valid.{Valid};
ghost use Rattle.costs.specs.Costs.{row_words, cost_words, word_most, limit_cost, gate_cost, step_cost, Row, RowStored, BuffersPut, CostsOf};

use timing::{Driver, Elements, Load, Register, Wire};

// Words of a row.
pub const ROW: usize = 64;

// Words of the eleven rows.
pub const COSTS: usize = 704;

// Where the rows start: no gate, a register, a step of each wire, the listed buffers, the FIFO between two clocks.
pub const NONE: usize = 0;

pub const REGISTER: usize = 64;

pub const HORIZONTAL: usize = 128;

pub const VERTICAL: usize = 192;

pub const BUFFERS: usize = 256;

pub const FIFO: usize = 640;

// A cost within the limit, and all that a word can hold past it.
fn limited(load: usize, limit: usize, cost: u16) -> u16
    ensures { result ≡ cond (leb load limit) cost word_most }
{
    if load <= limit { cost } else { u16::MAX }
}

// The row of this cost at each load.
fn row_of<F: Fn(usize) -> u16>(cost: F) -> [u16; ROW]
    requires { (l : ℕ) → l < row_words → F.pre cost l }
    ensures { (l : ℕ) → l < row_words → F.post cost l (get_or result l 0) }
{
    let mut row = [0u16; ROW];
    for (l, word) in row.iter_mut().enumerate() {
        *word = cost(l);
    }
    row
}

// No gate: nothing within the limit.
fn limit_row(limit: usize) -> [u16; ROW]
    ensures { Row (limit_cost limit) result }
{
    row_of(|l| limited(l, limit, 0))
}

// A gate with this driver.
fn gate_row(driver: Driver, limit: usize) -> [u16; ROW]
    requires { DriverInRange driver }
    ensures { Row (gate_cost driver limit) result }
{
    let cost = |l|
        requires { (l < row_words) × DriverInRange driver }
        ensures { result ≡ gate_cost driver limit l }
    { limited(l, limit, driver.delay(Load(l as u16)).0 as u16) };
    row_of(cost)
}

// One step of this wire; the limit is on the load after it.
fn step_row(wire: Wire, limit: usize) -> [u16; ROW]
    requires { WireInRange wire }
    ensures { Row (step_cost wire limit) result }
{
    let cost = |l|
        requires { (l < row_words) × WireInRange wire }
        ensures { result ≡ step_cost wire limit l }
    {
        let delay = wire.delay(Load(l as u16)).0 as u16;
        limited(l + wire.load().0 as usize, limit, delay)
    };
    row_of(cost)
}

// The row is put at `at`; the words before it stay.
fn put_row(rows: [u16; COSTS], at: usize, row: [u16; ROW]) -> [u16; COSTS]
    requires { (length rows ≡ cost_words) × (at + row_words ≤ cost_words) }
    ensures { RowStored at row_words row rows result }
{
    let mut all = rows;
    all[at..at + ROW].copy_from_slice(&row);
    all
}

// The rows of the listed buffers.
fn put_buffers(rows: [u16; COSTS], e: Elements) -> [u16; COSTS]
    requires { (length rows ≡ cost_words) × Valid e }
    ensures { BuffersPut e e.count rows result }
{
    let limit = e.limit.0 as usize;
    let mut all = rows;
    for i in 0..e.count {
        let row = gate_row(e.buffers[i].driver(), limit);
        // Put straight into `all`, the call would get no generated proof.
        let more = put_row(all, BUFFERS + i * ROW, row);
        all = more;
    }
    all
}

// The rows of all elements, and of the FIFO; with one clock the register stands in its place.
pub fn costs_of(e: Elements, fifo: Register) -> [u16; COSTS]
    requires { Valid e × RegisterInRange fifo }
    ensures { CostsOf e fifo result }
{
    let limit = e.limit.0 as usize;
    let none = put_row([0u16; COSTS], NONE, limit_row(limit));
    let register = put_row(none, REGISTER, gate_row(e.register.driver(), limit));
    let horizontal = put_row(register, HORIZONTAL, step_row(e.horizontal, limit));
    let vertical = put_row(horizontal, VERTICAL, step_row(e.vertical, limit));
    let buffers = put_buffers(vertical, e);
    put_row(buffers, FIFO, gate_row(fifo.driver(), limit))
}
