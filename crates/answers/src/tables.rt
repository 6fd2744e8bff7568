// Refusal 4. Each element is made by its own checking constructor; nothing tests its numbers again.
ghost use Rattle.std.specs.Prelude.{◌≡◌, cond, Some, None};
ghost use Rattle.answers.specs.Tables.{period_in_range, wire_ok, wire_from, register_ok, register_from, checked_tables};
ghost use Rattle.answers.specs.Crossing.{checked_elements, checked_crossing};

use crate::buffers::BuffersRead;
use crate::records::{Crossing, RegisterRecord, Tables, WireRecord};
use crate::refusal::Fault;
use timing::{Clocks, Elements, Load, Register, Wire};

// What the tables of a net between two clocks give; the elements' period is the sink's.
#[derive(Clone, Copy)]
pub struct CrossingElements {
    pub elements: Elements,
    pub clocks: Clocks,
}

// The elements of the tables and of a list of buffers, or the first fault.
pub fn check_tables(t: Tables, read: BuffersRead) -> Result<Elements, Fault>
    ensures { result ≡ checked_tables t read }
{
    if !period_in_range(t.period) {
        return Err(Fault::Period);
    }
    let made = check_elements(t, Crossing::default(), read)?;
    Ok(made.elements)
}

// The same between two clocks, in their order, with the clocks; the tables' period is the sink's.
pub fn check_crossing(t: Tables, x: Crossing, read: BuffersRead) -> Result<CrossingElements, Fault>
    ensures { result ≡ checked_crossing t x read }
{
    if !period_in_range(x.period) {
        return Err(Fault::SourcePeriod);
    }
    if !period_in_range(t.period) {
        return Err(Fault::SinkPeriod);
    }
    check_elements(t, x, read)
}

fn period_in_range(period: u16) -> bool
    ensures { result ≡ period_in_range period }
{
    Elements::PERIOD_MIN <= period && period <= Elements::PERIOD_MAX
}

// All but the periods, from the skew on. With one clock the FIFO's record is of zeros, which are in range.
fn check_elements(t: Tables, x: Crossing, read: BuffersRead) -> Result<CrossingElements, Fault>
    ensures { result ≡ checked_elements t x read }
{
    if Elements::SKEW_MAX < t.skew {
        return Err(Fault::Skew);
    }
    if Elements::LIMIT_MAX < t.limit {
        return Err(Fault::Limit);
    }
    let horizontal = t.horizontal.checked().ok_or(Fault::Horizontal)?;
    let vertical = t.vertical.checked().ok_or(Fault::Vertical)?;
    let register = t.register.checked().ok_or(Fault::Register)?;
    let fifo = x.fifo.checked().ok_or(Fault::Fifo)?;
    let buffers = read.places()?;
    Ok(CrossingElements {
        elements: Elements {
            period: t.period,
            skew: t.skew,
            limit: Load(t.limit),
            horizontal,
            vertical,
            register,
            count: read.list().n,
            buffers,
        },
        clocks: Clocks {
            fifos: 1,
            period: x.period,
            fifo,
        },
    })
}

impl WireRecord {
    fn checked(self) -> Option<Wire>
        ensures { result ≡ cond (wire_ok self) (Some (wire_from self)) None }
    {
        Wire::checked(self.resistance, self.load)
    }
}

impl RegisterRecord {
    fn checked(self) -> Option<Register>
        ensures { result ≡ cond (register_ok self) (Some (register_from self)) None }
    {
        Register::checked(self.resistance, self.delay, self.load, self.setup)
    }
}
