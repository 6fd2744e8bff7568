// The elements. Fields are private: an element comes from its checking constructor, or is the all-zero one.
ghost use Rattle.std.specs.Prelude.{◌≡◌, map, ◌+◌, ◌*◌, ◌≤◌};
ghost use Rattle.timing.specs.Ranges.{load_max, period_max, skew_max, sum_most};
ghost use Rattle.timing.specs.Valid.{Valid};
ghost use Rattle.timing.specs.Slack.{slack_of};
ghost use Rattle.timing.specs.Relaxed.{at_period, relaxed_wire, relaxed_buffer, relaxed_register, relaxed};
ghost use Rattle.timing.specs.Formulas.{wire_delay, gate_delay, skewed, wire_load, buffer_driver, buffer_load, register_driver, register_load, setup_delay};
ghost use Rattle.timing.specs.Elements.{WireInRange, DriverInRange, RegisterInRange, checked_wire, checked_buffer, checked_register, wire_of, buffer_of, register_of};

use crate::units::{HalfTicks, Load, Resistance};

// One step of wire.
#[derive(Clone, Copy)]
pub struct Wire {
    resistance: Resistance,
    load: Load,
}

// What drives a wire: the output of a buffer or a register. The delay is in ticks.
#[derive(Clone, Copy)]
pub struct Driver {
    resistance: Resistance,
    delay: u16,
}

#[derive(Clone, Copy)]
pub struct Buffer {
    driver: Driver,
    load: Load,
}

// The setup is in ticks.
#[derive(Clone, Copy)]
pub struct Register {
    driver: Driver,
    load: Load,
    setup: u16,
}

// The checked tables: codes 1 to count are the first buffers. The period and the skew are in ticks.
#[derive(Clone, Copy)]
pub struct Elements {
    pub period: u16,
    pub skew: u16,
    pub limit: Load,
    pub horizontal: Wire,
    pub vertical: Wire,
    pub register: Register,
    pub count: usize,
    pub buffers: [Buffer; Elements::BUFFERS_MAX],
}

impl Elements {
    // Ticks.
    pub const PERIOD_MIN: u16 = 1;

    pub const PERIOD_MAX: u16 = 30_000;

    pub const SKEW_MAX: u16 = 30_000;

    pub const LIMIT_MAX: u16 = Load::MAX;

    pub const BUFFERS_MAX: usize = 6;

    // The spare half-ticks of a span that comes to a register with this load and delay and closes there.
    pub fn slack(self, load: Load, delay: HalfTicks) -> i32
        requires { Valid self × ((load.0 ≤ load_max) × (delay.0 ≤ sum_most)) }
        ensures { result ≡ slack_of (2 * self.period) (delay.0 + gate_delay (skewed self.skew (register_driver self.register)) load.0) }
    {
        self.register.slack(self.period, self.skew, load, delay)
    }

    // The same tables with another period, in ticks.
    pub fn at_period(self, period: u16) -> Elements
        ensures { result ≡ at_period period self }
    {
        Elements { period, ..self }
    }

    // The same tables with every delay and the skew left out, and every load too unless `loads`.
    pub fn relaxed(self, loads: bool) -> Elements
        ensures { result ≡ relaxed loads self }
    {
        let mut buffers = self.buffers;
        for buffer in buffers.iter_mut() {
            *buffer = buffer.relaxed(loads);
        }
        Elements {
            skew: 0,
            horizontal: self.horizontal.relaxed(loads),
            vertical: self.vertical.relaxed(loads),
            register: self.register.relaxed(loads),
            buffers,
            ..self
        }
    }
}

impl Wire {
    pub const RESISTANCE_MAX: u16 = Resistance::MAX;

    pub const LOAD_MAX: u16 = Load::MAX;

    // The wire of these numbers, or none.
    pub fn checked(resistance: u16, load: u16) -> Option<Wire>
        ensures { result ≡ checked_wire resistance load }
    {
        if resistance <= Self::RESISTANCE_MAX && load <= Self::LOAD_MAX {
            Some(Wire {
                resistance: Resistance(resistance),
                load: Load(load),
            })
        } else {
            None
        }
    }

    // A wire of zeros.
    pub fn zero() -> Wire
        ensures { result ≡ wire_of 0 0 }
    {
        Wire {
            resistance: Resistance(0),
            load: Load(0),
        }
    }

    // The delay of one step that starts under this load.
    pub fn delay(self, load: Load) -> HalfTicks
        requires { WireInRange self × (load.0 ≤ load_max) }
        ensures { result.0 ≡ wire_delay self load.0 }
    {
        HalfTicks(self.resistance.0 as u32 * (2 * load.0 as u32 + self.load.0 as u32))
    }

    // The load that one step adds.
    pub fn load(self) -> Load
        ensures { result.0 ≡ wire_load self }
    {
        self.load
    }

    fn relaxed(self, loads: bool) -> Wire
        ensures { result ≡ relaxed_wire loads self }
    {
        Wire {
            resistance: Resistance(0),
            load: self.load.kept(loads),
        }
    }
}

impl Driver {
    // The delay of the gate under this load.
    pub fn delay(self, load: Load) -> HalfTicks
        requires { DriverInRange self × (load.0 ≤ load_max) }
        ensures { result.0 ≡ gate_delay self load.0 }
    {
        HalfTicks(2 * (self.resistance.0 as u32 * load.0 as u32 + self.delay as u32))
    }

    // The delay after the gate, of a span that comes to it with this load and delay.
    pub fn after(self, load: Load, delay: HalfTicks) -> HalfTicks
        requires { DriverInRange self × ((load.0 ≤ load_max) × (delay.0 ≤ sum_most)) }
        ensures { result.0 ≡ delay.0 + gate_delay self load.0 }
    {
        delay.plus(self.delay(load))
    }
}

impl Buffer {
    pub const RESISTANCE_MAX: u16 = Resistance::MAX;

    pub const DELAY_MAX: u16 = 1_000;

    pub const LOAD_MAX: u16 = Load::MAX;

    // The buffer of these numbers, or none.
    pub fn checked(resistance: u16, delay: u16, load: u16) -> Option<Buffer>
        ensures { result ≡ checked_buffer resistance delay load }
    {
        if resistance <= Self::RESISTANCE_MAX
            && delay <= Self::DELAY_MAX
            && load <= Self::LOAD_MAX
        {
            Some(Buffer {
                driver: Driver {
                    resistance: Resistance(resistance),
                    delay,
                },
                load: Load(load),
            })
        } else {
            None
        }
    }

    // A buffer of zeros, for the unused places of a list.
    pub fn zero() -> Buffer
        ensures { result ≡ buffer_of 0 0 0 }
    {
        Buffer {
            driver: Driver {
                resistance: Resistance(0),
                delay: 0,
            },
            load: Load(0),
        }
    }

    pub fn driver(self) -> Driver
        ensures { result ≡ buffer_driver self }
    {
        self.driver
    }

    pub fn load(self) -> Load
        ensures { result.0 ≡ buffer_load self }
    {
        self.load
    }

    fn relaxed(self, loads: bool) -> Buffer
        ensures { result ≡ relaxed_buffer loads self }
    {
        Buffer {
            driver: Driver {
                resistance: Resistance(0),
                delay: 0,
            },
            load: self.load.kept(loads),
        }
    }
}

impl Register {
    pub const RESISTANCE_MAX: u16 = Resistance::MAX;

    pub const DELAY_MAX: u16 = Buffer::DELAY_MAX;

    pub const LOAD_MAX: u16 = Load::MAX;

    pub const SETUP_MAX: u16 = 30_000;

    // The register of these numbers, or none.
    pub fn checked(resistance: u16, delay: u16, load: u16, setup: u16) -> Option<Register>
        ensures { result ≡ checked_register resistance delay load setup }
    {
        if resistance <= Self::RESISTANCE_MAX
            && delay <= Self::DELAY_MAX
            && load <= Self::LOAD_MAX
            && setup <= Self::SETUP_MAX
        {
            Some(Register {
                driver: Driver {
                    resistance: Resistance(resistance),
                    delay,
                },
                load: Load(load),
                setup,
            })
        } else {
            None
        }
    }

    // A register of zeros.
    pub fn zero() -> Register
        ensures { result ≡ register_of 0 0 0 0 }
    {
        Register {
            driver: Driver {
                resistance: Resistance(0),
                delay: 0,
            },
            load: Load(0),
            setup: 0,
        }
    }

    pub fn driver(self) -> Driver
        ensures { result ≡ register_driver self }
    {
        self.driver
    }

    pub fn load(self) -> Load
        ensures { result.0 ≡ register_load self }
    {
        self.load
    }

    fn relaxed(self, loads: bool) -> Register
        ensures { result ≡ relaxed_register loads self }
    {
        Register {
            driver: Driver {
                resistance: Resistance(0),
                delay: 0,
            },
            load: self.load.kept(loads),
            setup: 0,
        }
    }

    // The closing delay of a span that comes here with this load and delay, and twice this skew, in ticks.
    pub fn closing(self, skew: u16, load: Load, delay: HalfTicks) -> HalfTicks
        requires { RegisterInRange self × ((skew ≤ skew_max) × ((load.0 ≤ load_max) × (delay.0 ≤ sum_most))) }
        ensures { result.0 ≡ delay.0 + gate_delay (skewed skew (register_driver self)) load.0 }
    {
        self.driver
            .after(load, delay)
            .plus(HalfTicks(2 * skew as u32))
    }

    // The spare half-ticks of a span that comes here with this load and delay and closes, within this period and with this skew, in ticks. It is in time where they are not below zero.
    pub fn slack(self, period: u16, skew: u16, load: Load, delay: HalfTicks) -> i32
        requires { RegisterInRange self × ((period ≤ period_max) × ((skew ≤ skew_max) × ((load.0 ≤ load_max) × (delay.0 ≤ sum_most)))) }
        ensures { result ≡ slack_of (2 * period) (delay.0 + gate_delay (skewed skew (register_driver self)) load.0) }
    {
        self.closing(skew, load, delay).slack(period)
    }

    // The delay with which a span starts at this register.
    pub fn start_delay(self) -> HalfTicks
        requires { RegisterInRange self }
        ensures { result.0 ≡ setup_delay self }
    {
        HalfTicks(2 * self.setup as u32)
    }
}
