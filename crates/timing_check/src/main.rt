// Boundary values of the elements, the formulas, the spare figures, the checks of tables and ends, and the answers.
#![tactic(auto)]

mod answer;
mod crossing;
mod delay;
mod fault;
mod range;
mod slack;

fn main() {
    range::wires();
    range::buffers();
    range::registers();
    delay::delays();
    slack::slacks();
    slack::smallest();
    slack::magnitudes();
    fault::limits();
    fault::order();
    crossing::periods();
    crossing::order();
    crossing::fifos();
    answer::ends();
    answer::answers();
    answer::crossings();
    answer::verdicts();
    answer::reasons();
}
