// Refusal 4 between two clocks: the limits of the periods and of the FIFO, and the order of faults.
ghost use Rattle.std.specs.Prelude.{◌≡◌};
ghost use Rattle.timing_check.specs.Faults.{tables_with, list_with, crossing_with, crossing_number_of};

use crate::fault::{list, number, tables};
use answers::{BufferList, Crossing, RegisterRecord, Tables, check_crossing, read_list};
use check::expect;

pub fn periods() {
    expect(named(1, 1, 0, 63, 2, 2, 1, 1, 6, 1) == 0);
    expect(named(30_000, 30_000, 0, 63, 2, 2, 1, 1, 6, 1) == 0);
    expect(named(0, 26, 0, 63, 2, 2, 1, 1, 6, 1) == 107);
    expect(named(30_001, 26, 0, 63, 2, 2, 1, 1, 6, 1) == 107);
    expect(named(65_535, 26, 0, 63, 2, 2, 1, 1, 6, 1) == 107);
    expect(named(12, 0, 0, 63, 2, 2, 1, 1, 6, 1) == 108);
    expect(named(12, 30_001, 0, 63, 2, 2, 1, 1, 6, 1) == 108);
    expect(named(12, 65_535, 0, 63, 2, 2, 1, 1, 6, 1) == 108);
    expect(named(0, 0, 0, 63, 2, 2, 1, 1, 6, 1) == 107);
}

// Everything from some place of the order on is at fault.
pub fn order() {
    expect(named(0, 0, 30_001, 64, 256, 256, 256, 256, 7, 256) == 107);
    expect(named(12, 0, 30_001, 64, 256, 256, 256, 256, 7, 256) == 108);
    expect(named(12, 26, 30_001, 64, 256, 256, 256, 256, 7, 256) == 110);
    expect(named(12, 26, 0, 64, 256, 256, 256, 256, 7, 256) == 102);
    expect(named(12, 26, 0, 63, 256, 256, 256, 256, 7, 256) == 103);
    expect(named(12, 26, 0, 63, 2, 256, 256, 256, 7, 256) == 104);
    expect(named(12, 26, 0, 63, 2, 2, 256, 256, 7, 256) == 105);
    expect(named(12, 26, 0, 63, 2, 2, 1, 256, 7, 256) == 109);
    expect(named(12, 26, 0, 63, 2, 2, 1, 1, 7, 256) == 106);
    expect(named(12, 26, 0, 63, 2, 2, 1, 1, 6, 256) == 2);
}

// The FIFO has the ranges of the register.
pub fn fifos() {
    expect(with_fifo(0, 0, 0, 0) == 0);
    expect(with_fifo(255, 1_000, 63, 30_000) == 0);
    expect(with_fifo(256, 1_000, 63, 30_000) == 109);
    expect(with_fifo(255, 1_001, 63, 30_000) == 109);
    expect(with_fifo(255, 1_000, 64, 30_000) == 109);
    expect(with_fifo(255, 1_000, 63, 30_001) == 109);
}

// The number of the fault of the strip's tables with these numbers: the periods, the skew, the limit, the resistances of the wires, the
// register and the FIFO, the count and the resistance of the second buffer.
fn named(
    source: u16,
    sink: u16,
    skew: u16,
    limit: u16,
    horizontal: u16,
    vertical: u16,
    register: u16,
    fifo: u16,
    n: usize,
    buffer: u16,
) -> u16
    ensures { result ≡ crossing_number_of (tables_with sink skew limit horizontal vertical register) (crossing_with source fifo 2 1 1) (list_with n buffer) }
{
    number_of(
        tables(sink, skew, limit, horizontal, vertical, register),
        crossing(source, fifo, 2, 1, 1),
        list(n, buffer),
    )
}

// The same with these numbers of the FIFO.
fn with_fifo(resistance: u16, delay: u16, load: u16, setup: u16) -> u16
    ensures { result ≡ crossing_number_of (tables_with 26 0 63 2 2 1) (crossing_with 12 resistance delay load setup) (list_with 6 1) }
{
    number_of(
        tables(26, 0, 63, 2, 2, 1),
        crossing(12, resistance, delay, load, setup),
        list(6, 1),
    )
}

fn crossing(period: u16, resistance: u16, delay: u16, load: u16, setup: u16) -> Crossing
    ensures { result ≡ crossing_with period resistance delay load setup }
{
    Crossing {
        period,
        fifo: RegisterRecord {
            resistance,
            delay,
            load,
            setup,
        },
    }
}

fn number_of(t: Tables, x: Crossing, list: BufferList) -> u16
    ensures { result ≡ crossing_number_of t x list }
{
    number(check_crossing(t, x, read_list(list)).err())
}
