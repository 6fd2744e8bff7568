// Emission: the best route, written into the caller's visits from the sink on, its smallest spare figure and its registers on each side.
#![tactic(auto)]

ghost use Rattle.std.specs.Prelude.{◌≡◌, ◌+◌, length, set};
ghost use Rattle.table.specs.Problem.{net_rules};
ghost use Rattle.emission.specs.Emission.{PutAsks, Emitted, EmitAsks};

mod sides;

use choice::{State, choose};
use costs::COSTS;
use problem::Net;
use reach::{load_layer, no_layers};
pub use sides::Counts;
use sides::{Tally, pass, tallied};
use timing::SLACK_MOST;

// A visit's two words, where there is room for them.
fn put_visit(visits: &mut [u16], i: usize, cell: usize, code: u16)
    requires { PutAsks i cell (length visits.old) }
    ensures { visits.new ≡ set (set visits.old i cell) (i + 1) code }
{
    if i + 2 <= visits.len() {
        visits[i] = cell as u16;
        visits[i + 1] = code;
    }
}

// The smallest spare figure of a route, and its registers on each side; the source's end is counted, the sink's is not.
#[derive(Clone, Copy)]
pub struct Told {
    pub slack: i32,
    pub sink: u32,
    pub source: u32,
}

// The route of these figures, the weight to go after the first span and the steps: cell and code of each visit, two words each, or nothing where no words are lent.
// The labels beyond a FIFO, `aside` of them, were laid aside.
pub fn emit(
    plan: &[u8],
    scratch: &mut [u16],
    net: Net,
    costs: &[u16; COSTS],
    labels: Counts,
    aside: usize,
    weight: u32,
    steps: u32,
    visits: &mut [u16],
) -> Told
    requires { EmitAsks net plan.now costs.now labels aside weight steps scratch.old visits.old }
    ensures { Emitted (net_rules net plan.now) (length plan.now) weight steps scratch.old scratch.new visits.old visits.new result }
{
    let n = plan.len();
    let register = net.problem.elements.register;
    let sink = net.problem.sink;
    put_visit(visits, 0, sink, 7);
    let mut at = State {
        cell: sink,
        load: register.load(),
        delay: register.start_delay(),
        weight,
        steps,
        slack: SLACK_MOST,
        side: 0,
    };
    let mut layers = no_layers();
    let mut left = labels;
    let mut tally = Tally { sink: 0, source: 0 };
    let mut i = 2;
    while 0 < at.steps {
        layers = load_layer(
            plan,
            scratch,
            net,
            costs,
            at.side,
            left.registers,
            left.exits,
            at.cell,
            at.weight,
            at.steps - 1,
            layers,
        );
        let Some(visit) = choose(plan, scratch, net, left.exits, at) else {
            break;
        };
        put_visit(visits, i, visit.state.cell, visit.code);
        left = pass(scratch, n, visit.code, aside, left);
        tally = tallied(tally, at.side, visit.code);
        at = visit.state;
        i += 2;
    }
    Told {
        slack: at.slack,
        sink: tally.sink,
        source: tally.source,
    }
}
