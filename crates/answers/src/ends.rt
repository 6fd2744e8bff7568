// Refusal 5.
ghost use Rattle.std.specs.Prelude.{◌≡◌};
ghost use Rattle.answers.specs.Ends.{ends_fault};

// Whether an end is not in a plan of this many cells, or the ends are equal.
pub fn ends_fault(cells: u16, source: u16, sink: u16) -> bool
    ensures { result ≡ ends_fault cells source sink }
{
    if cells <= source {
        return true;
    }
    if cells <= sink {
        return true;
    }
    source == sink
}
