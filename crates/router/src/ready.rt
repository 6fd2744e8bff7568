// The best route of a problem that the checks have passed. The scratch words are zero afterwards.
ghost use Rattle.std.specs.Prelude.{◌*◌, length};
ghost use Rattle.costs.specs.Costs.{CostsOf};
ghost use Rattle.problem.specs.Problem.{Ready, rules_for};
ghost use Rattle.table.specs.Problem.{Room};
ghost use Rattle.search.specs.Turn.{Reaching};
ghost use Rattle.router.specs.Ready.{RouteDone};

use crate::writing::write_out;
use answers::{Answer, Figures, Refusal};
use costs::COSTS;
use emission::Counts;
use layout::CELL_WORDS;
use problem::{Net, Problem};
use rows::clear;
use search::{Reached, search_anew};

// The route of these figures is written, if there is room; its smallest spare figure is told in any case.
fn write_route(
    plan: &[u8],
    scratch: &mut [u16],
    p: Problem,
    costs: &[u16; COSTS],
    visits: &mut [u16],
    weight: u32,
    steps: u32,
    count: usize,
) -> Answer
    requires { Ready p plan.now × (Room (length plan.now) scratch.old × (Reaching (rules_for p plan.now) (length plan.now) 0 scratch.old weight steps count × CostsOf p.elements p.elements.register costs.now)) }
    ensures { RouteDone p plan.now scratch.old scratch.new visits.old visits.new result }
{
    let latency = p.elements.period as u32 * (weight + 1);
    let net = Net::one_clock(p);
    let labels = Counts {
        registers: count,
        exits: 0,
    };
    let written = write_out(
        plan,
        scratch,
        net,
        costs,
        labels,
        0,
        weight,
        steps,
        plan.len() * CELL_WORDS,
        visits,
    );
    let figures = Figures {
        registers: weight as u16,
        steps,
        latency,
        slack: written.told.slack,
    };
    if written.fits {
        Answer::Found(figures)
    } else {
        Answer::NoRoom(figures)
    }
}

// The best route, 7 or 8.
pub fn route_ready(
    plan: &[u8],
    scratch: &mut [u16],
    p: Problem,
    costs: &[u16; COSTS],
    visits: &mut [u16],
) -> Answer
    requires { Ready p plan.now × (Room (length plan.now) scratch.old × CostsOf p.elements p.elements.register costs.now) }
    ensures { RouteDone p plan.now scratch.old scratch.new visits.old visits.new result }
{
    let net = Net::one_clock(p);
    match search_anew(plan, scratch, net, costs, 0, 0) {
        Reached::Sink {
            weight,
            steps,
            labels,
        } => write_route(plan, scratch, p, costs, visits, weight, steps, labels),
        Reached::Nothing { .. } => {
            clear(scratch, 0, plan.len() * CELL_WORDS);
            Answer::Refused(Refusal::NoRoute)
        }
    }
}
