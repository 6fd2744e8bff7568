// Row operations on the scratch words. A row is 64 words, one a load; a word is one more than the largest delay, 0 for none.
// What a step or a gate costs is a row too, of the array of all costs.
#![tactic(auto)]

ghost use Rattle.std.specs.Prelude.{◌≡◌, ◌+◌, ◌*◌, ◌-◌, ◌≤◌, ◌<◌, length};
ghost use Rattle.costs.specs.Costs.{row_words, cost_words};
ghost use Rattle.rows.specs.Words.{Filled};
ghost use Rattle.rows.specs.Rows.{view_of, copied, raised, pushed, StepRow, Grows};

use costs::{COSTS, ROW};

// Words from `at` up to `end` become 0.
pub fn clear(scratch: &mut [u16], at: usize, end: usize)
    requires { (at ≤ end) × (end ≤ length scratch.old) }
    ensures { Filled (λ k. 0) at (end - at) scratch.old scratch.new }
{
    scratch[at..end].fill(0);
}

// The table's word for a cell and a load.
pub fn view(scratch: &[u16], cell: usize, load: usize) -> u16
    requires { (load < row_words) × (cell * row_words + row_words ≤ length scratch.now) }
    ensures { result ≡ view_of scratch.now cell load }
{
    scratch[cell * ROW + load]
}

// The row at `to` becomes what the costs at `base` leave of the cell's row of the table.
pub fn copy_row(scratch: &mut [u16], cell: usize, to: usize, costs: &[u16; COSTS], base: usize)
    requires { (base + row_words ≤ cost_words) × ((cell * row_words + row_words ≤ to) × (to + row_words ≤ length scratch.old)) }
    ensures { Filled (copied scratch.old cell costs.now base) to row_words scratch.old scratch.new }
{
    for l in 0..ROW {
        scratch[to + l] = view(scratch, cell, l).saturating_sub(costs[base + l]);
    }
}

// The row at `at` is raised to what the costs at `base` leave of `top`.
pub fn raise_row(scratch: &mut [u16], at: usize, top: u16, costs: &[u16; COSTS], base: usize)
    requires { (base + row_words ≤ cost_words) × (at + row_words ≤ length scratch.old) }
    ensures { Filled (raised scratch.old at top costs.now base) at row_words scratch.old scratch.new }
{
    for l in 0..ROW {
        let rest = top.saturating_sub(costs[base + l]);
        scratch[at + l] = scratch[at + l].max(rest);
    }
}

// Whether some word of the row at `to` would grow by the push.
pub fn grows(
    scratch: &[u16],
    from: usize,
    to: usize,
    costs: &[u16; COSTS],
    base: usize,
    step: usize,
) -> bool
    requires { StepRow costs.now base step × ((to + row_words ≤ from) × (from + 2 * row_words ≤ length scratch.now)) }
    ensures { Grows from to costs.now base step scratch.now result }
{
    let mut grown: u16 = 0;
    for l in 0..ROW {
        let rest = scratch[from + (l + step)].saturating_sub(costs[base + l]);
        grown = grown.max(rest.saturating_sub(scratch[to + l]));
    }
    0 < grown
}

// The row at `to` is raised to what the costs at `base` leave of the row at `from`, a step further on.
// A step past the row costs all; there the word read may lie past the row, but not past the words.
pub fn push_row(
    scratch: &mut [u16],
    from: usize,
    to: usize,
    costs: &[u16; COSTS],
    base: usize,
    step: usize,
)
    requires { StepRow costs.now base step × ((to + row_words ≤ from) × (from + 2 * row_words ≤ length scratch.old)) }
    ensures { Filled (pushed scratch.old from to costs.now base step) to row_words scratch.old scratch.new }
{
    for l in 0..ROW {
        let given = scratch[from + (l + step)].saturating_sub(costs[base + l]);
        scratch[to + l] = scratch[to + l].max(given);
    }
}
