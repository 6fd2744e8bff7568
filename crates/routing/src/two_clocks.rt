// The call for a net between two clocks: document 02, C-15.
ghost use Rattle.answers.specs.Lists.{list_of};
ghost use Rattle.crossing_router.specs.Route.{crossing_of, Crossed};

use answers::{BufferRecord, Crossing, CrossingAnswer, Tables};
use crossing_router::route_crossing_asked;
use lent_buffers::read_buffers;
use question::Asking;

// The best route from source to sink through one FIFO: its figures in the answer, its visits in `visits`.
// `Crossed` says the answer and what is left in the lent words, refusals included.
pub fn route_crossing(
    plan: &[u8],
    width: u16,
    height: u16,
    tables: Tables,
    crossing: Crossing,
    buffers: &[BufferRecord],
    source: u16,
    sink: u16,
    scratch: &mut [u16],
    visits: &mut [u16],
) -> CrossingAnswer
    ensures { Crossed (crossing_of plan.now width height tables crossing (list_of buffers.now) source sink) scratch.old scratch.new visits.old visits.new result }
{
    let asking = Asking {
        plan,
        width,
        height,
        tables,
        buffers: read_buffers(buffers),
        source,
        sink,
    };
    route_crossing_asked(&asking, crossing, scratch, visits)
}
