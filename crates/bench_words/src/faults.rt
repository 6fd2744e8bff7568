// The place of what refusal 4 names.
ghost use Rattle.std.specs.Prelude.{◌≡◌, ◌≤◌};
ghost use Rattle.bench_words.specs.Words.{fault_place, refusal_fault};

use answers::{Fault, Refusal};

// From 1, in the order of a call with so many clocks. Each clock has a period before the skew, and each clock but one a FIFO before the count.
pub fn fault_number(fault: Fault, clocks: u32) -> u32
    requires { clocks ≤ 2 }
    ensures { result ≡ fault_place clocks fault }
{
    match fault {
        Fault::Period => 1,
        Fault::SourcePeriod => 1,
        Fault::SinkPeriod => 2,
        Fault::Skew => clocks + 1,
        Fault::Limit => clocks + 2,
        Fault::Horizontal => clocks + 3,
        Fault::Vertical => clocks + 4,
        Fault::Register => clocks + 5,
        Fault::Fifo => clocks + 6,
        Fault::Count => 2 * clocks + 5,
        Fault::Buffer(place) => 2 * clocks + 5 + place as u32,
    }
}

// The same of a refusal; 0 for every other.
pub fn refusal_fault(refusal: Refusal, clocks: u32) -> u32
    requires { clocks ≤ 2 }
    ensures { result ≡ refusal_fault clocks refusal }
{
    match refusal {
        Refusal::Element(fault) => fault_number(fault, clocks),
        _ => 0,
    }
}
