// The calls for outsiders that look for a route: `route` here, `route_crossing` in two_clocks.rt, `explain` in explaining.rt.
#![tactic(auto)]

ghost use Rattle.answers.specs.Lists.{list_of};
ghost use Rattle.router.specs.Route.{question_of, Routed};

use answers::{Answer, BufferRecord, Tables};
use lent_buffers::read_buffers;
use question::Asking;
use router::route_asked;

mod explaining;
mod two_clocks;

pub use explaining::explain;
pub use two_clocks::route_crossing;

// The best route from source to sink: its figures in the answer, its visits in `visits`.
// `Routed` says the answer and what is left in the lent words, refusals included.
pub fn route(
    plan: &[u8],
    width: u16,
    height: u16,
    tables: Tables,
    buffers: &[BufferRecord],
    source: u16,
    sink: u16,
    scratch: &mut [u16],
    visits: &mut [u16],
) -> Answer
    ensures { Routed (question_of plan.now width height tables (list_of buffers.now) source sink) scratch.old scratch.new visits.old visits.new result }
{
    let asking = Asking {
        plan,
        width,
        height,
        tables,
        buffers: read_buffers(buffers),
        source,
        sink,
    };
    route_asked(&asking, scratch, visits)
}
