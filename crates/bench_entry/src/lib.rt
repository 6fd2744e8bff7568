// The benchmark's own entries to the route calls of one clock and of two, to the search without a route, to the verdict and to the reasons, on numbers and lent words; not offered to anyone else.
// Each has the whole promise of its call. That the areas lent are as long as said and lie apart is the caller's duty.
#![tactic(auto)]

ghost use Rattle.std.specs.Prelude.{length};
ghost use Rattle.bench_words.specs.Words.{lengths_right};
ghost use Rattle.bench_entry.specs.Question.{bench_question};
ghost use Rattle.bench_entry.specs.Effect.{BenchEffect};

use answers::{Numbered, read_list};
use bench_words::{WRONG_LENGTH, lengths_right, read_buffers, write_figures};
use job::tables_of;
use question::Asking;
use router::route_asked;

mod crossing;
mod explain;
mod judge;
mod least;

pub use crossing::bench_crossing;
pub use explain::bench_explain;
pub use judge::bench_judge;
pub use least::bench_search;

// The best route. Returns document 01's number, 0 to 8. `tables` holds eleven words: register R K C setup, horizontal R C,
// vertical R C, T, skew, L. `buffers` holds R K C of each. `figures` gets registers, steps, latency, the fault of refusal 4 and the spare half-ticks.
// Other lengths of these three are refused with 15, and nothing is touched.
#[unsafe(no_mangle)]
#[tactic(auto, unfolding(bench_words::specs::Words::lengths_right, bench_words::specs::Words::inputs_right, crate::specs::Question::bench_question))]
pub extern "C" fn bench_entry(
    plan: &[u8],
    width: u16,
    height: u16,
    tables: &[u16],
    buffers: &[u16],
    source: u16,
    sink: u16,
    scratch: &mut [u16],
    visits: &mut [u16],
    figures: &mut [u32],
) -> u16
    ensures { BenchEffect (lengths_right (length tables.now) (length buffers.now) (length figures.old)) (bench_question plan.now width height tables.now buffers.now source sink) scratch.old scratch.new visits.old visits.new figures.old figures.new result }
{
    if !lengths_right(tables.len(), buffers.len(), figures.len()) {
        return WRONG_LENGTH;
    }
    let asking = Asking {
        plan,
        width,
        height,
        tables: tables_of(tables),
        buffers: read_list(read_buffers(buffers)),
        source,
        sink,
    };
    let answer = route_asked(&asking, scratch, visits);
    write_figures(answer, figures);
    answer.number()
}
