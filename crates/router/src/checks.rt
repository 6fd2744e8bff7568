// The route call: refusals 1 to 6 in their order, then the route.
ghost use Rattle.question.specs.Asked.{asked};
ghost use Rattle.router.specs.Route.{Routed};

use crate::ready::route_ready;
use answers::{Answer, Refusal};
use costs::costs_of;
use layout::CELL_WORDS;
use question::Asking;

// Its whole effect, refused or not, is specs/Route.antt.
pub fn route_asked(asking: &Asking, scratch: &mut [u16], visits: &mut [u16]) -> Answer
    ensures { Routed (asked asking.now) scratch.old scratch.new visits.old visits.new result }
{
    let plan = asking.plan;
    match asking.check() {
        Err(r) => Answer::Refused(r),
        Ok(_) if scratch.len() < plan.len() * CELL_WORDS => Answer::Refused(Refusal::Scratch),
        Ok(p) => {
            let costs = costs_of(p.elements, p.elements.register);
            route_ready(plan, scratch, p, &costs, visits)
        }
    }
}
