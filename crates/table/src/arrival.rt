// The arrival row of one cell: its budget row, raised by what each gate that may stand there gives.
ghost use Rattle.std.specs.Prelude.{◌≡◌, ◌+◌, ◌*◌, ◌-◌, ◌≤◌, length, get_or};
ghost use Rattle.budget.specs.Table.{arrival};
ghost use Rattle.timing.specs.Ranges.{skew_max};
ghost use Rattle.layout.specs.Layout.{arrival_at};
ghost use Rattle.rows.specs.Words.{Filled};
ghost use Rattle.costs.specs.Costs.{row_words};
ghost use Rattle.table.specs.Problem.{net_rules, budget_of, seed_of, marks_seed};
ghost use Rattle.table.specs.ArrivalRow.{CellReady, RowsReady, SeedAsks, seeded, takes_buffers, raised_by_buffers};

use costs::{BUFFERS, COSTS, FIFO, NONE, REGISTER, ROW};
use layout::{ARRIVAL, SEEDS};
use plan::is_blocked;
use problem::{Net, Problem};
use rows::{copy_row, raise_row, view};
use timing::Elements;

// A buffer may stand on the cell, which has these marks.
#[tactic(auto, unfolding(crate::specs::ArrivalRow::takes_buffers))]
pub fn takes_buffers(marks: u8, p: Problem, cell: usize) -> bool
    ensures { result ≡ takes_buffers marks p cell }
{
    cell != p.source && cell != p.sink && !is_blocked(marks)
}

// Each buffer raises the arrival row at `to`, from the cell's row of the table.
fn raise_buffers(
    scratch: &mut [u16],
    cell: usize,
    to: usize,
    elements: Elements,
    costs: &[u16; COSTS],
)
    requires { RowsReady elements costs.now cell to scratch.old }
    ensures { Filled (raised_by_buffers scratch.old cell to elements elements.count) to row_words scratch.old scratch.new }
{
    let limit = elements.limit.0 as usize;
    for i in 0..elements.count {
        let load = elements.buffers[i].load().0 as usize;
        if load <= limit {
            let top = view(scratch, cell, load);
            raise_row(scratch, to, top, costs, BUFFERS + i * ROW);
        }
    }
}

// The seed mark has this code: it is the sum of the codes with which a span may close.
#[tactic(auto, unfolding(crate::specs::Problem::marks_seed))]
pub fn marks_seed(mark: u16, code: u16) -> bool
    ensures { result ≡ marks_seed mark code }
{
    mark == code || mark == 15
}

// Where the word at `mark` says that a span may close with this code, the arrival row at `to` is raised to what twice the skew and the gate's costs at `base` leave of `top`.
fn raise_seed(
    scratch: &mut [u16],
    mark: usize,
    code: u16,
    to: usize,
    top: u16,
    skew: u16,
    costs: &[u16; COSTS],
    base: usize,
)
    requires { SeedAsks mark to base scratch.old × (skew ≤ skew_max) }
    ensures { Filled (seeded (marks_seed (get_or scratch.old mark 0) code) scratch.old to (top - 2 * skew) costs.now base) to row_words scratch.old scratch.new }
{
    if marks_seed(scratch[mark], code) {
        raise_row(scratch, to, top.saturating_sub(2 * skew), costs, base);
    }
}

// The arrival row of a cell, in the one row that there is for it. A span may close there with a delay, the skew in it, below `top`.
pub fn fill_arrival(
    plan: &[u8],
    scratch: &mut [u16],
    net: Net,
    top: u16,
    costs: &[u16; COSTS],
    cell: usize,
)
    requires { CellReady net plan.now costs.now scratch.old cell }
    ensures { Filled (arrival (net_rules net plan.now) (seed_of (length plan.now) scratch.old) top (budget_of (length plan.now) scratch.old) cell) (length plan.now * arrival_at) row_words scratch.old scratch.new }
{
    let n = plan.len();
    let to = n * ARRIVAL;
    copy_row(scratch, cell, to, costs, NONE);
    if takes_buffers(plan[cell], net.problem, cell) {
        raise_buffers(scratch, cell, to, net.problem.elements, costs);
    }
    let skew = net.problem.elements.skew;
    raise_seed(scratch, n * SEEDS + cell, 7, to, top, skew, costs, REGISTER);
    raise_seed(scratch, n * SEEDS + cell, 8, to, top, skew, costs, FIFO);
}
