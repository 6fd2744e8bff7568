// The call that tells why there is no route: document 02, C-13.
ghost use Rattle.answers.specs.Lists.{list_of};
ghost use Rattle.question.specs.Question.{question_of};
ghost use Rattle.reasons.specs.Reasons.{Explaining};

use answers::{BufferRecord, Explained, Tables};
use lent_buffers::read_buffers;
use question::Asking;
use reasons::explain_asked;

// Why there is no route from source to sink: walled off, load, the smallest period, or that the longest is too short; 19 where there is one.
// `Explaining` says the answer and what is left in the scratch words, refusals included.
pub fn explain(
    plan: &[u8],
    width: u16,
    height: u16,
    tables: Tables,
    buffers: &[BufferRecord],
    source: u16,
    sink: u16,
    scratch: &mut [u16],
) -> Explained
    ensures { Explaining (question_of plan.now width height tables (list_of buffers.now) source sink) scratch.old scratch.new result }
{
    let asking = Asking {
        plan,
        width,
        height,
        tables,
        buffers: read_buffers(buffers),
        source,
        sink,
    };
    explain_asked(&asking, scratch)
}
