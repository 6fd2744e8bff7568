// Refusal 4: the limits of T, the skew, L and the count, and the order of faults.
ghost use Rattle.std.specs.Prelude.{◌≡◌};
ghost use Rattle.timing_check.specs.Faults.{fault_number, tables_with, list_with, fault_with};

use answers::{
    BufferList, BufferRecord, Fault, RegisterRecord, Tables, WireRecord, check_tables, read_list,
};
use check::expect;

pub fn limits() {
    expect(fault(1, 0, 0, 2, 2, 1, 0, 1) == 0);
    expect(fault(30_000, 0, 63, 2, 2, 1, 6, 1) == 0);
    expect(fault(0, 0, 63, 2, 2, 1, 6, 1) == 101);
    expect(fault(30_001, 0, 63, 2, 2, 1, 6, 1) == 101);
    expect(fault(25, 30_000, 63, 2, 2, 1, 6, 1) == 0);
    expect(fault(25, 30_001, 63, 2, 2, 1, 6, 1) == 110);
    expect(fault(25, 65_535, 63, 2, 2, 1, 6, 1) == 110);
    expect(fault(25, 0, 64, 2, 2, 1, 6, 1) == 102);
    expect(fault(25, 0, 63, 2, 2, 1, 7, 1) == 106);
    // a buffer past the count is not tested
    expect(fault(25, 0, 63, 2, 2, 1, 1, 256) == 0);
}

// Everything from some place of the order on is at fault.
pub fn order() {
    expect(fault(0, 30_001, 64, 256, 256, 256, 7, 256) == 101);
    expect(fault(25, 30_001, 64, 256, 256, 256, 7, 256) == 110);
    expect(fault(25, 0, 64, 256, 256, 256, 7, 256) == 102);
    expect(fault(25, 0, 63, 256, 256, 256, 7, 256) == 103);
    expect(fault(25, 0, 63, 2, 256, 256, 7, 256) == 104);
    expect(fault(25, 0, 63, 2, 2, 256, 7, 256) == 105);
    expect(fault(25, 0, 63, 2, 2, 1, 7, 256) == 106);
    expect(fault(25, 0, 63, 2, 2, 1, 6, 256) == 2);
}

// The number of the fault of the strip's tables with these numbers.
fn fault(
    period: u16,
    skew: u16,
    limit: u16,
    horizontal: u16,
    vertical: u16,
    register: u16,
    n: usize,
    buffer: u16,
) -> u16
    ensures { result ≡ fault_with period skew limit horizontal vertical register n buffer }
{
    let checked = check_tables(
        tables(period, skew, limit, horizontal, vertical, register),
        read_list(list(n, buffer)),
    );
    number(checked.err())
}

// The strip's tables with these numbers: the period, the skew, the limit, and the resistances of the wires and the register.
pub fn tables(
    period: u16,
    skew: u16,
    limit: u16,
    horizontal: u16,
    vertical: u16,
    register: u16,
) -> Tables
    ensures { result ≡ tables_with period skew limit horizontal vertical register }
{
    Tables {
        register: RegisterRecord {
            resistance: register,
            delay: 2,
            load: 1,
            setup: 1,
        },
        horizontal: WireRecord {
            resistance: horizontal,
            load: 3,
        },
        vertical: WireRecord {
            resistance: vertical,
            load: 3,
        },
        period,
        skew,
        limit,
    }
}

// This many buffers, the second with this resistance.
pub fn list(n: usize, buffer: u16) -> BufferList
    ensures { result ≡ list_with n buffer }
{
    let none = BufferRecord {
        resistance: 0,
        delay: 0,
        load: 0,
    };
    let second = BufferRecord {
        resistance: buffer,
        delay: 1,
        load: 1,
    };
    BufferList {
        n,
        items: [none, second, none, none, none, none],
    }
}

pub fn number(fault: Option<Fault>) -> u16
    ensures { result ≡ fault_number fault }
{
    match fault {
        None => 0,
        Some(Fault::Period) => 101,
        Some(Fault::Limit) => 102,
        Some(Fault::Horizontal) => 103,
        Some(Fault::Vertical) => 104,
        Some(Fault::Register) => 105,
        Some(Fault::Count) => 106,
        Some(Fault::SourcePeriod) => 107,
        Some(Fault::SinkPeriod) => 108,
        Some(Fault::Fifo) => 109,
        Some(Fault::Skew) => 110,
        Some(Fault::Buffer(place)) => place,
    }
}
