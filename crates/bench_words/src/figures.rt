// The words that tell an answer.
ghost use Rattle.std.specs.Prelude.{◌≡◌, length};
ghost use Rattle.bench_words.specs.Words.{result_numbers};
ghost use Rattle.bench_words.specs.Figures.{answer_fault, figure_words};

use crate::faults::refusal_fault;
use answers::Answer;
use timing::slack_magnitude;

fn answer_fault(answer: Answer) -> u32
    ensures { result ≡ answer_fault answer }
{
    match answer {
        Answer::Refused(r) => refusal_fault(r, 1),
        _ => 0,
    }
}

// Registers, steps, latency, fault and spare half-ticks, which no answer has below zero.
#[tactic(auto, unfolding(crate::specs::Figures::figure_words))]
pub fn write_figures(answer: Answer, figures: &mut [u32])
    requires { length figures.old ≡ result_numbers }
    ensures { figures.new ≡ figure_words answer }
{
    let f = answer.figures();
    figures.copy_from_slice(&[
        u32::from(f.registers),
        f.steps,
        f.latency,
        answer_fault(answer),
        slack_magnitude(f.slack),
    ]);
}
