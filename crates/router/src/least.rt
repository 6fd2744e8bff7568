// The search without the route: the figures of the best route, for those who need no visits. The scratch words are not cleared afterwards.
ghost use Rattle.std.specs.Prelude.{length};
ghost use Rattle.costs.specs.Costs.{CostsOf};
ghost use Rattle.problem.specs.Problem.{Ready};
ghost use Rattle.table.specs.Problem.{Room};
ghost use Rattle.router.specs.Least.{Searched};

use costs::COSTS;
use problem::{Net, Problem};
use search::{Reached, search_anew};

// The figures of the best route, as far as the search tells them.
#[derive(Clone, Copy)]
pub struct Least {
    pub registers: u16,
    pub steps: u32,
}

// Of the best route, if there is one.
pub fn least_ready(
    plan: &[u8],
    scratch: &mut [u16],
    p: Problem,
    costs: &[u16; COSTS],
) -> Option<Least>
    requires { Ready p plan.now × (Room (length plan.now) scratch.old × CostsOf p.elements p.elements.register costs.now) }
    ensures { Searched p plan.now scratch.old scratch.new result }
{
    let net = Net::one_clock(p);
    match search_anew(plan, scratch, net, costs, 0, 0) {
        Reached::Sink { weight, steps, .. } => Some(Least {
            registers: weight as u16,
            steps,
        }),
        Reached::Nothing { .. } => None,
    }
}
