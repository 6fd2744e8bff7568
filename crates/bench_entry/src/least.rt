// The entry to the search without the route.
ghost use Rattle.std.specs.Prelude.{◌≤◌, ◌≡◌, length};
ghost use Rattle.job.specs.Fields.{table_numbers};
ghost use Rattle.question.specs.Asked.{asked};
ghost use Rattle.bench_words.specs.Words.{lengths_right, result_numbers};
ghost use Rattle.bench_entry.specs.Question.{bench_question};
ghost use Rattle.bench_entry.specs.Searched.{least_answer, Searching, BenchSearched, SearchEffect};

use answers::{Answer, Figures, Numbered, Refusal, read_list};
use bench_words::{WRONG_LENGTH, lengths_right, read_buffers, write_figures};
use costs::costs_of;
use job::tables_of;
use layout::CELL_WORDS;
use question::Asking;
use router::{Least, least_ready};

// The best route's registers and steps by the search alone: no route is made. Returns 0, or document 01's number, 1 to 7. `tables` and `buffers` are those of
// `bench_entry`. `figures` gets registers, steps, 0, the fault of refusal 4 and 0. Where the checks pass, the scratch words of the cells hold anything afterwards.
// Other lengths of these three are refused with 15, and nothing is touched.
#[unsafe(no_mangle)]
pub extern "C" fn bench_search(
    plan: &[u8],
    width: u16,
    height: u16,
    tables: &[u16],
    buffers: &[u16],
    source: u16,
    sink: u16,
    scratch: &mut [u16],
    figures: &mut [u32],
) -> u16
    ensures { SearchEffect (lengths_right (length tables.now) (length buffers.now) (length figures.old)) (bench_question plan.now width height tables.now buffers.now source sink) scratch.old scratch.new figures.old figures.new result }
{
    if lengths_right(tables.len(), buffers.len(), figures.len()) {
        return ask_search(
            plan, width, height, tables, buffers, source, sink, scratch, figures,
        );
    }
    WRONG_LENGTH
}

// The call, where the lengths are right.
fn ask_search(
    plan: &[u8],
    width: u16,
    height: u16,
    tables: &[u16],
    buffers: &[u16],
    source: u16,
    sink: u16,
    scratch: &mut [u16],
    figures: &mut [u32],
) -> u16
    requires { (table_numbers ≤ length tables.now) × (length figures.old ≡ result_numbers) }
    ensures { BenchSearched (bench_question plan.now width height tables.now buffers.now source sink) scratch.old scratch.new figures.new result }
{
    let asking = Asking {
        plan,
        width,
        height,
        tables: tables_of(tables),
        buffers: read_list(read_buffers(buffers)),
        source,
        sink,
    };
    let answer = search_asked(&asking, scratch);
    write_figures(answer, figures);
    answer.number()
}

// Refusals 1 to 6 as the route call's, then the search.
fn search_asked(asking: &Asking, scratch: &mut [u16]) -> Answer
    ensures { Searching (asked asking.now) scratch.old scratch.new result }
{
    let plan = asking.plan;
    match asking.check() {
        Err(r) => Answer::Refused(r),
        Ok(_) if scratch.len() < plan.len() * CELL_WORDS => Answer::Refused(Refusal::Scratch),
        Ok(p) => {
            let costs = costs_of(p.elements, p.elements.register);
            least_answer(least_ready(plan, scratch, p, &costs))
        }
    }
}

// What the search tells, as an answer.
fn least_answer(least: Option<Least>) -> Answer
    ensures { result ≡ least_answer least }
{
    match least {
        Some(Least { registers, steps }) => Answer::Found(Figures {
            registers,
            steps,
            latency: 0,
            slack: 0,
        }),
        None => Answer::Refused(Refusal::NoRoute),
    }
}
