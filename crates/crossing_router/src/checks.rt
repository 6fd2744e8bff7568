// The route call between two clocks: refusals 1 to 6 in their order, then the route.
ghost use Rattle.question.specs.Asked.{asked_between};
ghost use Rattle.crossing_router.specs.Route.{Crossed};

use crate::sides::crossing_ready;
use answers::{Crossing, CrossingAnswer, Refusal};
use costs::costs_of;
use layout::CROSSING_WORDS;
use question::Asking;

// Its whole effect, refused or not, is specs/Route.antt.
pub fn route_crossing_asked(
    asking: &Asking,
    crossing: Crossing,
    scratch: &mut [u16],
    visits: &mut [u16],
) -> CrossingAnswer
    ensures { Crossed (asked_between asking.now crossing) scratch.old scratch.new visits.old visits.new result }
{
    let plan = asking.plan;
    match asking.check_between(crossing) {
        Err(r) => CrossingAnswer::Refused(r),
        Ok(_) if scratch.len() < plan.len() * CROSSING_WORDS => {
            CrossingAnswer::Refused(Refusal::Scratch)
        }
        Ok(net) => {
            let costs = costs_of(net.problem.elements, net.clocks.fifo);
            crossing_ready(plan, scratch, net, &costs, visits)
        }
    }
}
