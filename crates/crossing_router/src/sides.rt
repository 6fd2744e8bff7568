// The best route of a net between two clocks that the checks have passed: the source's side is searched first, then the sink's. The scratch words are zero afterwards.
ghost use Rattle.std.specs.Prelude.{length};
ghost use Rattle.problem.specs.Net.{net_rules};
ghost use Rattle.search.specs.Turn.{Reaching};
ghost use Rattle.emission.specs.Emission.{Aside};
ghost use Rattle.crossing_router.specs.Sides.{TwoAsks, FarDone, CrossingDone};

use answers::{CrossingAnswer, CrossingFigures, Refusal};
use costs::COSTS;
use emission::Counts;
use labels::copy_set;
use layout::{ASIDE, CROSSING_WORDS, EXITS, LABELS};
use problem::Net;
use router::write_out;
use rows::clear;
use search::{Reached, search_anew};

// The source's side, on which there is no sink: how many labels it has of registers, laid aside, and of the FIFOs that lead there.
fn search_far(plan: &[u8], scratch: &mut [u16], net: Net, costs: &[u16; COSTS]) -> Counts
    requires { TwoAsks net plan.now costs.now scratch.old }
    ensures { FarDone (net_rules net plan.now) (length plan.now) scratch.old scratch.new result }
{
    let n = plan.len();
    clear(scratch, n * EXITS, n * ASIDE);
    match search_anew(plan, scratch, net, costs, 1, 0) {
        Reached::Sink { .. } => unreachable!(),
        Reached::Nothing { labels, watched } => {
            copy_set(scratch, n, n * LABELS, n * ASIDE);
            Counts {
                registers: labels,
                exits: watched,
            }
        }
    }
}

// The route of these figures is written, if there is room; its other figures are told in any case.
fn write_crossing(
    plan: &[u8],
    scratch: &mut [u16],
    net: Net,
    costs: &[u16; COSTS],
    visits: &mut [u16],
    labels: Counts,
    aside: usize,
    weight: u32,
    steps: u32,
) -> CrossingAnswer
    requires { TwoAsks net plan.now costs.now scratch.old × (Reaching (net_rules net plan.now) (length plan.now) labels.exits scratch.old weight steps labels.registers × Aside (net_rules net plan.now) (length plan.now) scratch.old aside) }
    ensures { CrossingDone net plan.now scratch.old scratch.new visits.old visits.new result }
{
    let latency = net.weight(0) + weight;
    let written = write_out(
        plan,
        scratch,
        net,
        costs,
        labels,
        aside,
        weight,
        steps,
        plan.len() * CROSSING_WORDS,
        visits,
    );
    // The source's end is no register of the route's.
    let figures = CrossingFigures {
        source: written.told.source.saturating_sub(1),
        sink: written.told.sink,
        steps,
        latency,
        slack: written.told.slack,
    };
    if written.fits {
        CrossingAnswer::Found(figures)
    } else {
        CrossingAnswer::NoRoom(figures)
    }
}

// The best route, 7 or 8.
pub fn crossing_ready(
    plan: &[u8],
    scratch: &mut [u16],
    net: Net,
    costs: &[u16; COSTS],
    visits: &mut [u16],
) -> CrossingAnswer
    requires { TwoAsks net plan.now costs.now scratch.old }
    ensures { CrossingDone net plan.now scratch.old scratch.new visits.old visits.new result }
{
    let far = search_far(plan, scratch, net, costs);
    match search_anew(plan, scratch, net, costs, 0, far.exits) {
        Reached::Sink {
            weight,
            steps,
            labels,
        } => {
            let labels = Counts {
                registers: labels,
                ..far
            };
            let aside = far.registers;
            write_crossing(
                plan, scratch, net, costs, visits, labels, aside, weight, steps,
            )
        }
        Reached::Nothing { .. } => {
            clear(scratch, 0, plan.len() * CROSSING_WORDS);
            CrossingAnswer::Refused(Refusal::NoRoute)
        }
    }
}
