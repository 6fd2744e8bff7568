// The clocks of a net: document 02, C-15. With one clock no FIFO stands on a route; with two, one.
ghost use Rattle.std.specs.Prelude.{◌≡◌};
ghost use Rattle.timing.specs.Clocks.{one_clock};

use crate::elements::Register;

// How many FIFOs a route has, the period of the spans beyond them (the sink's is that of the tables), in ticks, and the FIFO.
#[derive(Clone, Copy)]
pub struct Clocks {
    pub fifos: usize,
    pub period: u16,
    pub fifo: Register,
}

impl Clocks {
    // One clock with this period.
    pub fn one(period: u16) -> Clocks
        ensures { result ≡ one_clock period }
    {
        Clocks {
            fifos: 0,
            period,
            fifo: Register::zero(),
        }
    }
}
