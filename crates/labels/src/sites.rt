// Labels for the active cells where the state after a register, or a FIFO, has come into the table.
ghost use Rattle.std.specs.Prelude.{◌≡◌, ◌+◌, ◌*◌, ◌≤◌, ◌<◌, length};
ghost use Rattle.timing.specs.Elements.{RegisterInRange};
ghost use Rattle.rules.specs.Rules.{register_code};
ghost use Rattle.rules.specs.Legal.{may_stand};
ghost use Rattle.costs.specs.Costs.{row_words};
ghost use Rattle.layout.specs.Layout.{active_at};
ghost use Rattle.lists.specs.Lists.{Listed};
ghost use Rattle.problem.specs.Problem.{Ready, rules_for};
ghost use Rattle.table.specs.Problem.{net_rules};
ghost use Rattle.labels.specs.Additions.{FreshIn, LabelAsks, LabelsAddedAmong, LabelsAdded};

use crate::{label, weight_word};
use layout::ACTIVE;
use plan::takes_register;
use problem::{Net, Problem};
use rows::view;
use timing::Register;

// A register may stand on the cell, between the ends; with two clocks a FIFO may too.
pub fn may_register(plan: &[u8], p: Problem, cell: usize) -> bool
    requires { Ready p plan.now × (cell < length plan.now) }
    ensures { result ≡ may_stand (rules_for p plan.now) cell register_code }
{
    cell != p.source && cell != p.sink && takes_register(plan[cell])
}

// The state after this gate at the cell has come into the table.
pub fn fresh_in(scratch: &[u16], gate: Register, cell: usize) -> bool
    requires { RegisterInRange gate × (cell * row_words + row_words ≤ length scratch.now) }
    ensures { FreshIn gate scratch.now cell result }
{
    let load = gate.load().0 as usize;
    let start = gate.start_delay().0 as u16;
    start < view(scratch, cell, load)
}

// The cell is labelled, if it is a site without a label and the state after the gate of this code is in the table. The new count of labels.
fn label_cell(
    plan: &[u8],
    scratch: &mut [u16],
    net: Net,
    code: u16,
    set: usize,
    cell: usize,
    weight: u32,
    steps: u32,
    count: usize,
) -> usize
    requires { LabelAsks net plan.now code set weight steps count scratch.old × (cell < length plan.now) }
    ensures { LabelsAddedAmong (net_rules net plan.now) (length plan.now) code set (λ c. c ≡ cell) weight steps scratch.old scratch.new count result }
{
    let n = plan.len();
    if 0 < weight_word(scratch, n, set, cell)
        || !fresh_in(scratch, net.gate(code), cell)
        || !may_register(plan, net.problem, cell)
    {
        return count;
    }
    label(scratch, n, set, cell, weight, steps, count);
    count + 1
}

// The cells of the active list, of `active` cells, are labelled so. The new count of labels.
pub fn label_active(
    plan: &[u8],
    scratch: &mut [u16],
    net: Net,
    code: u16,
    set: usize,
    active: usize,
    weight: u32,
    steps: u32,
    count: usize,
) -> usize
    requires { LabelAsks net plan.now code set weight steps count scratch.old × Listed (length plan.now) scratch.old (length plan.now * active_at) active }
    ensures { LabelsAdded (net_rules net plan.now) (length plan.now) code set weight steps scratch.old scratch.new count result }
{
    let n = plan.len();
    let mut known = count;
    for i in 0..active {
        let cell = scratch[n * ACTIVE + i] as usize;
        known = label_cell(plan, scratch, net, code, set, cell, weight, steps, known);
    }
    known
}
