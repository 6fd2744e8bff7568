// Whether registers, or FIFOs, close a span no quicker than the other: by the rows of costs, at the loads that a wire can leave.
ghost use Rattle.std.specs.Prelude.{◌+◌, ◌≤◌};
ghost use Rattle.timing.specs.Valid.{Valid};
ghost use Rattle.costs.specs.Costs.{row_words, cost_words, CostsOf};
ghost use Rattle.problem.specs.Net.{fifo_of};
ghost use Rattle.search.specs.Idle.{NoLess, IdleFrom, IdleIn};

use costs::{COSTS, FIFO, REGISTER, ROW};
use labels::{Idle, no_idle};
use problem::Net;

// From this load on the row at `a` costs no less than the row at `b`.
fn no_less(costs: &[u16; COSTS], a: usize, b: usize, from: usize) -> bool
    requires { (a + row_words ≤ cost_words) × (b + row_words ≤ cost_words) }
    ensures { NoLess costs.now a b from result }
{
    (from..ROW).all(|l| costs[a + l] >= costs[b + l])
}

// At all loads from this one on.
fn idle_from(costs: &[u16; COSTS], from: usize) -> Idle
    ensures { IdleFrom costs.now from result }
{
    Idle {
        registers: no_less(costs, REGISTER, FIFO, from),
        fifos: no_less(costs, FIFO, REGISTER, from),
    }
}

// With no labels of FIFOs no cell is a seed of both, and nothing is looked up.
pub fn idle_gates(net: Net, costs: &[u16; COSTS], exits: usize) -> Idle
    requires { Valid net.problem.elements × CostsOf net.problem.elements (fifo_of net) costs.now }
    ensures { IdleIn net costs.now exits result }
{
    if exits == 0 {
        return no_idle();
    }
    let horizontal = net.problem.elements.horizontal.load().0 as usize;
    let vertical = net.problem.elements.vertical.load().0 as usize;
    idle_from(costs, horizontal.min(vertical))
}
