// A route whose figures the search has found: written into the visits if there is room, and the scratch words are cleared. For any net.
ghost use Rattle.std.specs.Prelude.{cond, ◌≡◌, leb};
ghost use Rattle.problem.specs.Net.{net_rules};
ghost use Rattle.router.specs.Writing.{WriteAsks, Writes};

use costs::COSTS;
use emission::{Counts, Told, emit};
use problem::Net;
use rows::clear;

// What emission tells of a route, and whether its visits were written.
#[derive(Clone, Copy)]
pub struct Written {
    pub told: Told,
    pub fits: bool,
}

// The words that a route of so many gets of those lent: all of its own, or none.
fn words_for(need: usize, lent: usize) -> usize
    ensures { result ≡ cond (leb need lent) need 0 }
{
    if need <= lent { need } else { 0 }
}

// The first `most` scratch words are cleared.
pub fn write_out(
    plan: &[u8],
    scratch: &mut [u16],
    net: Net,
    costs: &[u16; COSTS],
    labels: Counts,
    aside: usize,
    weight: u32,
    steps: u32,
    most: usize,
    visits: &mut [u16],
) -> Written
    requires { WriteAsks net plan.now costs.now labels aside weight steps most scratch.old }
    ensures { Writes (net_rules net plan.now) weight steps most scratch.old scratch.new visits.old visits.new result }
{
    let room = words_for(2 * (steps as usize + 1), visits.len());
    let told = emit(
        plan,
        scratch,
        net,
        costs,
        labels,
        aside,
        weight,
        steps,
        &mut visits[..room],
    );
    clear(scratch, 0, most);
    Written {
        told,
        fits: 0 < room,
    }
}
