// Labels: for a cell where a span may close, the least weight and steps to go after the close. A label's word is weight plus one, 0 for none.
#![tactic(auto)]

mod both;
mod sets;
mod sites;

ghost use Rattle.std.specs.Prelude.{◌≡◌, ◌+◌, ◌*◌, ◌≤◌, ◌<◌, length, T};
ghost use Rattle.layout.specs.Layout.{active_at, trail_at};
ghost use Rattle.rules.specs.Rules.{is_closing};
ghost use Rattle.lists.specs.Lists.{Listed};
ghost use Rattle.labels.specs.Labels.{pair_of, weight_word, weight_of, steps_of, known_of, Compared, SetIn, PairSet, Labelable, LabelAdded, MarkedWith, Planted, ArriveAsks, ArrivedAll};

pub use both::{BothArrivals, Idle, arrive_both, no_idle};
use layout::{ACTIVE, ORDER, SEEDS, STEPS_HIGH, STEPS_LOW, WEIGHT_HIGH};
use lists::enlist;
pub use sets::copy_set;
pub use sites::{fresh_in, label_active, may_register};
use table::marks_seed;

// The number in two words.
fn pair(scratch: &[u16], low: usize, high: usize) -> u32
    requires { (low < length scratch.now) × (high < length scratch.now) }
    ensures { result ≡ pair_of scratch.now low high }
{
    scratch[low] as u32 + scratch[high] as u32 * 65536
}

// One more than the label's weight; 0 for no label.
pub fn weight_word(scratch: &[u16], n: usize, set: usize, cell: usize) -> u32
    requires { SetIn n set scratch.now × (cell < n) }
    ensures { result ≡ weight_word n set scratch.now cell }
{
    pair(scratch, set + cell, set + n * WEIGHT_HIGH + cell)
}

// The label's steps.
pub fn steps_of(scratch: &[u16], n: usize, set: usize, cell: usize) -> u32
    requires { SetIn n set scratch.now × (cell < n) }
    ensures { result ≡ steps_of n set scratch.now cell }
{
    pair(
        scratch,
        set + n * STEPS_LOW + cell,
        set + n * STEPS_HIGH + cell,
    )
}

// The cell's label is after this weight and these steps.
pub fn is_after(scratch: &[u16], n: usize, set: usize, cell: usize, weight: u32, steps: u32) -> bool
    requires { SetIn n set scratch.now × T (known_of n set scratch.now cell) }
    ensures { Compared n set scratch.now weight steps cell result }
{
    let word = weight_word(scratch, n, set, cell);
    if word <= weight {
        false
    } else if word - 1 == weight {
        steps < steps_of(scratch, n, set, cell)
    } else {
        true
    }
}

// The number is put into the two words.
fn put_pair(scratch: &mut [u16], low: usize, high: usize, number: u32)
    requires { (low < high) × (high < length scratch.old) }
    ensures { PairSet low high number scratch.old scratch.new }
{
    scratch[low] = (number % 65536) as u16;
    scratch[high] = (number / 65536) as u16;
}

// The cell is labelled, and joins the order of `count` labels.
pub fn label(
    scratch: &mut [u16],
    n: usize,
    set: usize,
    cell: usize,
    weight: u32,
    steps: u32,
    count: usize,
)
    requires { Labelable n set cell weight steps count scratch.old }
    ensures { LabelAdded n set cell weight steps count scratch.old scratch.new }
{
    put_pair(
        scratch,
        set + cell,
        set + n * WEIGHT_HIGH + cell,
        weight + 1,
    );
    put_pair(
        scratch,
        set + n * STEPS_LOW + cell,
        set + n * STEPS_HIGH + cell,
        steps,
    );
    scratch[set + n * ORDER + count] = cell as u16;
}

// The seed mark with this code too. 15 is the sum of the two codes that close a span.
fn marked(mark: u16, code: u16) -> u16
    requires { T (is_closing code) }
    ensures { MarkedWith mark code result }
{
    if marks_seed(mark, code) {
        mark
    } else if marks_seed(mark, 15 - code) {
        15
    } else {
        code
    }
}

// The cell becomes a seed for gates of this code and joins the active list, but for an idle code where the cell is a seed of the other. The list's new count.
fn plant(scratch: &mut [u16], n: usize, cell: usize, code: u16, idle: bool, active: usize) -> usize
    requires { T (is_closing code) × (Listed n scratch.old (n * active_at) active × ((cell < n) × ((n ≤ 1024) × (n * trail_at ≤ length scratch.old)))) }
    ensures { Planted n cell code idle scratch.old scratch.new result }
{
    let mark = scratch[n * SEEDS + cell];
    scratch[n * SEEDS + cell] = marked(mark, code);
    if idle && marks_seed(mark, 15 - code) {
        return active;
    }
    enlist(scratch, n, n * ACTIVE, active, cell)
}

#[derive(Clone, Copy)]
pub struct Arrivals {
    pub at: usize,
    pub active: usize,
}

// The labels of the order from `at` on, of `count` in all, become seeds for gates of this code as long as they are not after this weight and these steps.
pub fn arrive(
    scratch: &mut [u16],
    n: usize,
    set: usize,
    code: u16,
    idle: bool,
    at: usize,
    count: usize,
    weight: u32,
    steps: u32,
    active: usize,
) -> Arrivals
    requires { ArriveAsks n set code at count active scratch.old }
    ensures { ArrivedAll n set code idle at count weight steps scratch.old scratch.new result.at result.active }
{
    let mut listed = active;
    for i in at..count {
        let cell = scratch[set + n * ORDER + i] as usize;
        if is_after(scratch, n, set, cell, weight, steps) {
            return Arrivals {
                at: i,
                active: listed,
            };
        }
        listed = plant(scratch, n, cell, code, idle, listed);
    }
    Arrivals {
        at: count,
        active: listed,
    }
}
