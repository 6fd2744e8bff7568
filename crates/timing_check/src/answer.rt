// Refusal 5, and the numbers and figures of answers with one clock and two, verdicts, comparisons and reasons.
ghost use Rattle.std.specs.Prelude.{◌≡◌};
ghost use Rattle.answers.specs.Numbers.{verdict_number, comparison_number, explained_number};

use answers::{
    Answer, Comparison, CrossingAnswer, CrossingFigures, Explained, Figures, Finding, Numbered,
    Reason, Refusal, Verdict, VisitFault, Which, ends_fault,
};
use check::expect;

pub fn ends() {
    expect(!ends_fault(3, 0, 2));
    expect(ends_fault(3, 3, 0));
    expect(ends_fault(3, 0, 3));
    expect(ends_fault(3, 1, 1));
}

pub fn answers() {
    let figures = Figures {
        registers: 1,
        steps: 2,
        latency: 50,
        slack: 26,
    };
    expect(Answer::Found(figures).number() == 0);
    expect(Answer::NoRoom(figures).number() == 8);
    expect(Answer::NoRoom(figures).figures().latency == 50);
    expect(Answer::NoRoom(figures).figures().slack == 26);
    expect(Answer::Refused(Refusal::NoRoute).number() == 7);
    expect(Answer::Refused(Refusal::NoRoute).figures().latency == 0);
    expect(Answer::Refused(Refusal::NoRoute).figures().slack == 0);
}

pub fn crossings() {
    let figures = CrossingFigures {
        source: 1,
        sink: 0,
        steps: 4,
        latency: 50,
        slack: 2,
    };
    expect(CrossingAnswer::Found(figures).number() == 0);
    expect(CrossingAnswer::NoRoom(figures).number() == 8);
    expect(CrossingAnswer::NoRoom(figures).figures().source == 1);
    expect(CrossingAnswer::NoRoom(figures).figures().sink == 0);
    expect(CrossingAnswer::Refused(Refusal::NoRoute).number() == 7);
    expect(CrossingAnswer::Refused(Refusal::NoRoute).figures().latency == 0);
}

pub fn verdicts() {
    expect(judged(Ok(Finding::Accepted(26))) == 0);
    expect(judged(Ok(Finding::AtFault(3, VisitFault::Period(-1)))) == 0);
    expect(judged(Ok(Finding::AtFault(3, VisitFault::Load))) == 0);
    expect(judged(Err(Refusal::Ends)) == 5);
    expect(judged(Err(Refusal::RouteList)) == 17);
    expect(compared(Ok(Which::First)) == 0);
    expect(compared(Ok(Which::Second)) == 0);
    expect(compared(Err(Refusal::RouteList)) == 17);
    expect(compared(Err(Refusal::NoneLegal)) == 18);
}

pub fn reasons() {
    expect(explained(Ok(Reason::WalledOff)) == 0);
    expect(explained(Ok(Reason::Period(12))) == 0);
    expect(explained(Err(Refusal::Scratch)) == 6);
    expect(explained(Err(Refusal::RouteExists)) == 19);
}

fn judged(verdict: Verdict) -> u16
    ensures { result ≡ verdict_number verdict }
{
    verdict.number()
}

fn compared(comparison: Comparison) -> u16
    ensures { result ≡ comparison_number comparison }
{
    comparison.number()
}

fn explained(reason: Explained) -> u16
    ensures { result ≡ explained_number reason }
{
    reason.number()
}
