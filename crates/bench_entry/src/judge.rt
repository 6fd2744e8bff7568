// The entry to the verdict.
ghost use Rattle.std.specs.Prelude.{length};
ghost use Rattle.bench_words.specs.Words.{lengths_right};
ghost use Rattle.bench_entry.specs.Question.{bench_question};
ghost use Rattle.bench_entry.specs.Judged.{JudgeEffect};

use answers::{Numbered, read_list};
use bench_words::{WRONG_LENGTH, found_of, lengths_right, read_buffers, write_found};
use job::tables_of;
use question::Asking;
use verdict::judge_asked;

// The verdict on a list. Returns document 02's number: 0, 1 to 5 or 17. `tables` and `buffers` are those of `bench_entry`.
// `found` gets whether the list is accepted, the first visit at fault, its fault's place from 1, the fault of refusal 4, and the spare half-ticks of an accepted list or the miss of a period fault.
// Other lengths of these three are refused with 15, and nothing is touched.
#[unsafe(no_mangle)]
#[tactic(auto, unfolding(bench_words::specs::Words::lengths_right, bench_words::specs::Words::inputs_right, crate::specs::Question::bench_question))]
pub extern "C" fn bench_judge(
    plan: &[u8],
    width: u16,
    height: u16,
    tables: &[u16],
    buffers: &[u16],
    source: u16,
    sink: u16,
    list: &[u16],
    found: &mut [u64],
) -> u16
    ensures { JudgeEffect (lengths_right (length tables.now) (length buffers.now) (length found.old)) (bench_question plan.now width height tables.now buffers.now source sink) list.now found.old found.new result }
{
    if !lengths_right(tables.len(), buffers.len(), found.len()) {
        return WRONG_LENGTH;
    }
    let asking = Asking {
        plan,
        width,
        height,
        tables: tables_of(tables),
        buffers: read_list(read_buffers(buffers)),
        source,
        sink,
    };
    let verdict = judge_asked(&asking, list);
    write_found(found_of(verdict), found);
    verdict.number()
}
