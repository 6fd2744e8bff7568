// The calls on route lists from outside: document 02, C-11. All that is lent is only read.
#![tactic(auto)]

ghost use Rattle.std.specs.Prelude.{◌≡◌};
ghost use Rattle.answers.specs.Lists.{list_of};
ghost use Rattle.question.specs.Question.{question_of};
ghost use Rattle.verdict.specs.Verdict.{verdict_of};
ghost use Rattle.comparison.specs.Better.{comparison_of, Handed};

use answers::{BufferRecord, Comparison, Tables, Verdict};
use comparison::{better_asked, compare_asked};
use lent_buffers::read_buffers;
use question::Asking;
use verdict::judge_asked;

// The verdict on a list of words cell, code, cell, code, .. from the sink on: accepted, or the first visit at fault and the fault there.
// `verdict_of` says it, refusals included.
pub fn judge(
    plan: &[u8],
    width: u16,
    height: u16,
    tables: Tables,
    buffers: &[BufferRecord],
    source: u16,
    sink: u16,
    list: &[u16],
) -> Verdict
    ensures { result ≡ verdict_of (question_of plan.now width height tables (list_of buffers.now) source sink) list.now }
{
    let asking = Asking {
        plan,
        width,
        height,
        tables,
        buffers: read_buffers(buffers),
        source,
        sink,
    };
    judge_asked(&asking, list)
}

// Which of two lists is the better by the ranking of routes; of equal ones the first. An illegal list gives way to a legal one.
// `comparison_of` says it, refusals included: 17 for either list, 18 where neither is legal.
pub fn compare(
    plan: &[u8],
    width: u16,
    height: u16,
    tables: Tables,
    buffers: &[BufferRecord],
    source: u16,
    sink: u16,
    a: &[u16],
    b: &[u16],
) -> Comparison
    ensures { result ≡ comparison_of (question_of plan.now width height tables (list_of buffers.now) source sink) a.now b.now }
{
    let asking = Asking {
        plan,
        width,
        height,
        tables,
        buffers: read_buffers(buffers),
        source,
        sink,
    };
    compare_asked(&asking, a, b)
}

// The better list itself, the caller's own words; an empty part where `compare` refuses.
// `Handed` says it of the references.
pub fn better<'a>(
    plan: &[u8],
    width: u16,
    height: u16,
    tables: Tables,
    buffers: &[BufferRecord],
    source: u16,
    sink: u16,
    a: &'a [u16],
    b: &'a [u16],
) -> &'a [u16]
    ensures { Handed (comparison_of (question_of plan.now width height tables (list_of buffers.now) source sink) a.now b.now) a.entry b.entry result }
{
    let asking = Asking {
        plan,
        width,
        height,
        tables,
        buffers: read_buffers(buffers),
        source,
        sink,
    };
    better_asked(&asking, a, b)
}
