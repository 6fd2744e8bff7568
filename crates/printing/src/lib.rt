// From the bytes of a job to the printed bytes: all that the route printer does but read and write.
#![tactic(auto)]

ghost use Rattle.std.specs.Prelude.{◌≡◌, ◌*◌, ◌≤◌, length, take};
ghost use Rattle.timing.specs.Ranges.{buffers_max};
ghost use Rattle.job.specs.Job.{asks, cells_max, question_from, marks_of};
ghost use Rattle.text.specs.Put.{Put};
ghost use Rattle.printing.specs.Printed.{scratch_words, visit_words, text_bytes, reading_text, Prints};

use answers::read_list;
use job::{Asked, buffers_of, read_job};
use question::Asking;
use router::route_asked;
use text::{put_answer, put_refusal};

// The text of a job's answer, at the start of `out`; answers its length. The job's numbers stand in the scratch words
// until the route call.
pub fn print_job(
    job: &[u8],
    plan: &mut [u8],
    scratch: &mut [u16],
    visits: &mut [u16],
    out: &mut [u8],
) -> usize
    requires { (cells_max ≤ length plan.old) × ((length scratch.old ≡ scratch_words) × ((length visits.old ≡ visit_words) × (text_bytes ≤ length out.old))) }
    ensures { Prints job.now result out.old out.new }
{
    match read_job(job, plan, scratch) {
        Ok((asked, count)) => print_asked(asked, count, plan, scratch, visits, out),
        Err(fault) => put_refusal(fault.number(), out),
    }
}

// The text of the route call's answer.
fn print_asked(
    asked: Asked,
    count: usize,
    plan: &[u8],
    scratch: &mut [u16],
    visits: &mut [u16],
    out: &mut [u8],
) -> usize
    requires { (count ≤ buffers_max) × ((asked.width * asked.height ≤ cells_max) × ((cells_max ≤ length plan.now) × ((length scratch.old ≡ scratch_words) × ((length visits.old ≡ visit_words) × (text_bytes ≤ length out.old))))) }
    ensures { Put (reading_text (asks (question_from (marks_of plan.now asked) asked count (take (3 * count) scratch.old)))) 0 result out.old out.new }
{
    let list = buffers_of(scratch, count);
    let cells = asked.width as usize * asked.height as usize;
    let asking = Asking {
        plan: &plan[..cells],
        width: asked.width,
        height: asked.height,
        tables: asked.tables,
        buffers: read_list(list),
        source: asked.source,
        sink: asked.sink,
    };
    let answer = route_asked(&asking, scratch, visits);
    put_answer(answer, visits, out)
}
