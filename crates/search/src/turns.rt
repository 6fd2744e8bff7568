// One turn of the search: a layer, then the new labels; or, after a layer that changed nothing, the next label.
ghost use Rattle.std.specs.Prelude.{◌≡◌, ◌+◌, ◌*◌, ◌≤◌, length};
ghost use Rattle.timing.specs.Elements.{RegisterInRange};
ghost use Rattle.costs.specs.Costs.{row_words};
ghost use Rattle.table.specs.Problem.{net_rules};
ghost use Rattle.search.specs.Turn.{moved_to, Quieted, TurnEffect};
ghost use Rattle.search.specs.Ask.{PlaceAsks, QuietAsks, AtSink, WatchAsks, WatchDone, TurnAsks};

use costs::COSTS;
use labels::{fresh_in, is_after, label_active, steps_of, weight_word};
use layout::{EXITS, LABELS, ORDER};
use problem::Net;
use std::ops::ControlFlow;
use table::next_layer;
use trail::no_trail;

// Where the search stands: the weight to go after the current span, the steps to go, the count of the active list;
// of the registers' labels those before `at` in the order are seeds, `count` is the order's length; of the FIFOs' those before `exit` are.
// On a side after a FIFO, `watched` labels of those that lead here are made.
#[derive(Clone, Copy)]
pub struct Progress {
    pub weight: u32,
    pub steps: u32,
    pub active: usize,
    pub at: usize,
    pub count: usize,
    pub exit: usize,
    pub watched: usize,
}

// How the search of a side ends. Both variants are full and neither is an error: no `Option` or `Result`.
#[derive(Clone, Copy)]
pub enum Reached {
    // The least weight after the first span, and steps, from the sink; the count of labels.
    Sink {
        weight: u32,
        steps: u32,
        labels: usize,
    },
    // All that can be done on this side is known: the counts of its labels, and of those of the FIFOs that lead here.
    Nothing {
        labels: usize,
        watched: usize,
    },
}

// On to the label at this place of a set's order.
fn move_to(scratch: &[u16], n: usize, set: usize, at: usize, f: Progress) -> Progress
    requires { PlaceAsks n set scratch.now at }
    ensures { result ≡ moved_to n set scratch.now at f }
{
    let first = scratch[set + n * ORDER + at] as usize;
    Progress {
        weight: weight_word(scratch, n, set, first) - 1,
        steps: steps_of(scratch, n, set, first),
        active: 0,
        ..f
    }
}

// After a layer that changed nothing: the earlier of the first labels that wait, if one does.
fn after_quiet(
    scratch: &[u16],
    n: usize,
    exits: usize,
    f: Progress,
) -> ControlFlow<Reached, Progress>
    requires { QuietAsks n exits scratch.now f }
    ensures { Quieted n exits scratch.now f result }
{
    if f.exit == exits {
        if f.at == f.count {
            return ControlFlow::Break(Reached::Nothing {
                labels: f.count,
                watched: f.watched,
            });
        }
        return ControlFlow::Continue(move_to(scratch, n, n * LABELS, f.at, f));
    }
    let g = move_to(scratch, n, n * EXITS, f.exit, f);
    if f.at == f.count {
        return ControlFlow::Continue(g);
    }
    let first = scratch[n * LABELS + n * ORDER + f.at] as usize;
    if is_after(scratch, n, n * LABELS, first, g.weight, g.steps) {
        return ControlFlow::Continue(g);
    }
    ControlFlow::Continue(move_to(scratch, n, n * LABELS, f.at, f))
}

// The sink's start state has come into the table; only its own side knows it.
fn at_sink(scratch: &[u16], net: Net, side: usize) -> bool
    requires { RegisterInRange net.problem.elements.register × (net.problem.sink * row_words + row_words ≤ length scratch.now) }
    ensures { AtSink net side scratch.now result }
{
    side == 0 && fresh_in(scratch, net.problem.elements.register, net.problem.sink)
}

// The FIFOs that lead to this side are labelled, if any do; the new count of their labels.
fn watch(
    plan: &[u8],
    scratch: &mut [u16],
    net: Net,
    side: usize,
    active: usize,
    weight: u32,
    steps: u32,
    watched: usize,
) -> usize
    requires { WatchAsks net plan.now side active weight steps watched scratch.old }
    ensures { WatchDone (net_rules net plan.now) (length plan.now) side weight steps scratch.old scratch.new watched result }
{
    if side == 0 {
        return watched;
    }
    let set = plan.len() * EXITS;
    label_active(plan, scratch, net, 8, set, active, weight, steps, watched)
}

// One layer; then, if it grew, the sink is tested on its side and new labels are set; if not, the next label is next.
pub fn take_turn(
    plan: &[u8],
    scratch: &mut [u16],
    net: Net,
    costs: &[u16; COSTS],
    side: usize,
    exits: usize,
    f: Progress,
) -> ControlFlow<Reached, Progress>
    requires { TurnAsks net plan.now costs.now side exits scratch.old f }
    ensures { TurnEffect (net_rules net plan.now) (length plan.now) side exits scratch.old f scratch.new result }
{
    let n = plan.len();
    let top = 2 * net.period(side) + 1;
    let active = next_layer(plan, scratch, net, top, costs, f.active, no_trail()).count;
    if active == 0 {
        return after_quiet(scratch, n, exits, f);
    }
    let steps = f.steps + 1;
    if at_sink(scratch, net, side) {
        return ControlFlow::Break(Reached::Sink {
            weight: f.weight,
            steps,
            labels: f.count,
        });
    }
    let weight = f.weight + net.weight(side);
    let count = label_active(
        plan,
        scratch,
        net,
        7,
        n * LABELS,
        active,
        weight,
        steps,
        f.count,
    );
    let watched = watch(plan, scratch, net, side, active, weight, steps, f.watched);
    ControlFlow::Continue(Progress {
        steps,
        active,
        count,
        watched,
        ..f
    })
}
