// The words that tell an answer between two clocks.
ghost use Rattle.std.specs.Prelude.{◌≡◌, length};
ghost use Rattle.bench_words.specs.Crossed.{crossing_results, crossing_answer_fault, crossed_figures};

use crate::faults::refusal_fault;
use answers::CrossingAnswer;
use timing::slack_magnitude;

// `answer_fault` of another enum: a trait over the two would hold the same match twice.
fn crossing_fault(answer: CrossingAnswer) -> u32
    ensures { result ≡ crossing_answer_fault answer }
{
    match answer {
        CrossingAnswer::Refused(r) => refusal_fault(r, 2),
        _ => 0,
    }
}

// Registers of the source's side and of the sink's, steps, latency, fault and spare half-ticks, which no answer has below zero.
#[tactic(auto, unfolding(crate::specs::Crossed::crossed_figures))]
pub fn write_crossed(answer: CrossingAnswer, figures: &mut [u32])
    requires { length figures.old ≡ crossing_results }
    ensures { figures.new ≡ crossed_figures answer }
{
    let f = answer.figures();
    figures.copy_from_slice(&[
        f.source,
        f.sink,
        f.steps,
        f.latency,
        crossing_fault(answer),
        slack_magnitude(f.slack),
    ]);
}
