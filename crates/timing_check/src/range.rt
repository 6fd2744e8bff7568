// Each range limit, and one above.
ghost use Rattle.std.specs.Prelude.{◌≡◌};
ghost use Rattle.timing.specs.Elements.{wire_in_range, buffer_in_range, register_in_range};

use check::expect;
use timing::{Buffer, Register, Wire};

pub fn wires() {
    expect(has_wire(0, 0));
    expect(has_wire(255, 63));
    expect(!has_wire(256, 63));
    expect(!has_wire(255, 64));
}

pub fn buffers() {
    expect(has_buffer(0, 0, 0));
    expect(has_buffer(255, 1_000, 63));
    expect(!has_buffer(256, 1_000, 63));
    expect(!has_buffer(255, 1_001, 63));
    expect(!has_buffer(255, 1_000, 64));
}

pub fn registers() {
    expect(has_register(0, 0, 0, 0));
    expect(has_register(255, 1_000, 63, 30_000));
    expect(!has_register(256, 1_000, 63, 30_000));
    expect(!has_register(255, 1_001, 63, 30_000));
    expect(!has_register(255, 1_000, 64, 30_000));
    expect(!has_register(255, 1_000, 63, 30_001));
}

fn has_wire(resistance: u16, load: u16) -> bool
    ensures { result ≡ wire_in_range resistance load }
{
    Wire::checked(resistance, load).is_some()
}

fn has_buffer(resistance: u16, delay: u16, load: u16) -> bool
    ensures { result ≡ buffer_in_range resistance delay load }
{
    Buffer::checked(resistance, delay, load).is_some()
}

fn has_register(resistance: u16, delay: u16, load: u16, setup: u16) -> bool
    ensures { result ≡ register_in_range resistance delay load setup }
{
    Register::checked(resistance, delay, load, setup).is_some()
}
