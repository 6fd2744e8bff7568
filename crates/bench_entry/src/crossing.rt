// The entry to the route call between two clocks.
ghost use Rattle.std.specs.Prelude.{length};
ghost use Rattle.bench_words.specs.Crossed.{crossing_lengths_right};
ghost use Rattle.bench_entry.specs.Crossed.{bench_crossing, CrossingEffect};

use answers::{Numbered, read_list};
use bench_words::{
    WRONG_LENGTH, crossing_lengths_right, read_buffers, read_crossing, write_crossed,
};
use crossing_router::route_crossing_asked;
use job::tables_of;
use question::Asking;

// The best route between two clocks. Returns document 01's number, 0 to 8. `tables` and `buffers` are those of `bench_entry`; T is the sink's period.
// `clocks` holds five words: the source's period, FIFO R K C setup. `figures` gets the registers of the source's side and of the sink's, steps, latency,
// the fault of refusal 4 in the order of two clocks, and the spare half-ticks.
// Other lengths of these four are refused with 15, and nothing is touched.
#[unsafe(no_mangle)]
#[tactic(auto, unfolding(bench_words::specs::Crossed::crossing_lengths_right, bench_words::specs::Words::inputs_right, crate::specs::Crossed::bench_crossing))]
pub extern "C" fn bench_crossing(
    plan: &[u8],
    width: u16,
    height: u16,
    tables: &[u16],
    clocks: &[u16],
    buffers: &[u16],
    source: u16,
    sink: u16,
    scratch: &mut [u16],
    visits: &mut [u16],
    figures: &mut [u32],
) -> u16
    ensures { CrossingEffect (crossing_lengths_right (length tables.now) (length clocks.now) (length buffers.now) (length figures.old)) (bench_crossing plan.now width height tables.now clocks.now buffers.now source sink) scratch.old scratch.new visits.old visits.new figures.old figures.new result }
{
    if !crossing_lengths_right(tables.len(), clocks.len(), buffers.len(), figures.len()) {
        return WRONG_LENGTH;
    }
    let asking = Asking {
        plan,
        width,
        height,
        tables: tables_of(tables),
        buffers: read_list(read_buffers(buffers)),
        source,
        sink,
    };
    let answer = route_crossing_asked(&asking, read_crossing(clocks), scratch, visits);
    write_crossed(answer, figures);
    answer.number()
}
