// The formulas on the strip of document 01 and at their largest.
ghost use Rattle.std.specs.Prelude.{◌≡◌, cond, ◌≤◌};
ghost use Rattle.timing.specs.Ranges.{load_max};
ghost use Rattle.timing.specs.Elements.{wire_in_range, buffer_in_range, register_in_range, wire_of, buffer_of, register_of};
ghost use Rattle.timing.specs.Formulas.{wire_delay, gate_delay, buffer_driver, setup_delay};

use check::expect;
use timing::{Buffer, Load, Register, Wire};

pub fn delays() {
    // the strip's first and second step; halving the whole bracket gives 8 for the first
    expect(step(2, 3, 1) == 10);
    expect(step(2, 3, 4) == 22);
    expect(step(255, 63, 63) == 48_195);
    // the strip's register under its load at the source
    expect(gate(1, 2, 7) == 18);
    expect(gate(255, 1_000, 63) == 34_130);
    expect(start(1) == 2);
    expect(start(30_000) == 60_000);
}

// The delay of a step over this wire under a load; 0 where there is no such wire.
fn step(resistance: u16, load: u16, under: u16) -> u32
    requires { under ≤ load_max }
    ensures { result ≡ cond (wire_in_range resistance load) (wire_delay (wire_of resistance load) under) 0 }
{
    let Some(wire) = Wire::checked(resistance, load) else {
        return 0;
    };
    wire.delay(Load(under)).0
}

// The delay of a buffer under a load; 0 where there is no such buffer.
fn gate(resistance: u16, delay: u16, under: u16) -> u32
    requires { under ≤ load_max }
    ensures { result ≡ cond (buffer_in_range resistance delay 0) (gate_delay (buffer_driver (buffer_of resistance delay 0)) under) 0 }
{
    let Some(buffer) = Buffer::checked(resistance, delay, 0) else {
        return 0;
    };
    buffer.driver().delay(Load(under)).0
}

// The delay with which a span starts at a register with this setup; 0 where there is no such register.
fn start(setup: u16) -> u32
    ensures { result ≡ cond (register_in_range 0 0 0 setup) (setup_delay (register_of 0 0 0 setup)) 0 }
{
    let Some(register) = Register::checked(0, 0, 0, setup) else {
        return 0;
    };
    register.start_delay().0
}
