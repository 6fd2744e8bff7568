// The entry to the reasons.
ghost use Rattle.std.specs.Prelude.{length};
ghost use Rattle.bench_words.specs.Words.{lengths_right};
ghost use Rattle.bench_entry.specs.Question.{bench_question};
ghost use Rattle.bench_entry.specs.Explained.{ExplainEffect};

use answers::{Numbered, read_list};
use bench_words::{WRONG_LENGTH, lengths_right, read_buffers, why_of, write_why};
use job::tables_of;
use question::Asking;
use reasons::explain_asked;

// Why there is no route. Returns document 02's number: 0, 1 to 6 or 19. `tables` and `buffers` are those of `bench_entry`.
// `told` gets the reason's place (1 walled off, 2 load, 3 period, 4 too short; 0 where refused), the smallest period, the fault of refusal 4, 0 and 0.
// Other lengths of these three are refused with 15, and nothing is touched.
#[unsafe(no_mangle)]
#[tactic(auto, unfolding(bench_words::specs::Words::lengths_right, bench_words::specs::Words::inputs_right, crate::specs::Question::bench_question))]
pub extern "C" fn bench_explain(
    plan: &[u8],
    width: u16,
    height: u16,
    tables: &[u16],
    buffers: &[u16],
    source: u16,
    sink: u16,
    scratch: &mut [u16],
    told: &mut [u32],
) -> u16
    ensures { ExplainEffect (lengths_right (length tables.now) (length buffers.now) (length told.old)) (bench_question plan.now width height tables.now buffers.now source sink) scratch.old scratch.new told.old told.new result }
{
    if !lengths_right(tables.len(), buffers.len(), told.len()) {
        return WRONG_LENGTH;
    }
    let asking = Asking {
        plan,
        width,
        height,
        tables: tables_of(tables),
        buffers: read_list(read_buffers(buffers)),
        source,
        sink,
    };
    let explained = explain_asked(&asking, scratch);
    write_why(why_of(explained), told);
    explained.number()
}
