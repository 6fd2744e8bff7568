// Which of two route lists is the better: refusals 1 to 5, then 17 and 18.
ghost use Rattle.std.specs.Prelude.{false, ◌≡◌};
ghost use Rattle.problem.specs.Problem.{rules_for, Ready};
ghost use Rattle.question.specs.Asked.{asked};
ghost use Rattle.rules.specs.Legal.{legal};
ghost use Rattle.verdict.specs.Verdict.{route_in, bad_list};
ghost use Rattle.comparison.specs.Better.{comparison_for, comparison_of};

use crate::ranks::ranks_before;
use answers::{Comparison, Finding, Refusal, Which};
use problem::Problem;
use question::Asking;
use verdict::{bad_list, judge_ready};

// The verdict accepts this list.
fn legal_ready(plan: &[u8], p: Problem, words: &[u16]) -> bool
    requires { Ready p plan.now × (bad_list words.now ≡ false) }
    ensures { result ≡ legal (rules_for p plan.now) (route_in words.now) }
{
    // arms, not `matches!`: the must-fail edit `legal_with_fault` turns one of them
    match judge_ready(plan, p, words) {
        Finding::Accepted(_) => true,
        Finding::AtFault(_, _) => false,
    }
}

// The comparison on a problem that the checks have passed, of lists that are not refused.
fn compare_ready(plan: &[u8], p: Problem, a: &[u16], b: &[u16]) -> Comparison
    requires { Ready p plan.now × ((bad_list a.now ≡ false) × (bad_list b.now ≡ false)) }
    ensures { result ≡ comparison_for (rules_for p plan.now) (route_in a.now) (route_in b.now) }
{
    let first = legal_ready(plan, p, a);
    let second = legal_ready(plan, p, b);
    match (first, second) {
        (true, true) if ranks_before(b, a) => Ok(Which::Second),
        (true, _) => Ok(Which::First),
        (false, true) => Ok(Which::Second),
        (false, false) => Err(Refusal::NoneLegal),
    }
}

// Refusals 1 to 5, then 17 for either list, then the comparison.
pub fn compare_asked(asking: &Asking, a: &[u16], b: &[u16]) -> Comparison
    ensures { result ≡ comparison_of (asked asking.now) a.now b.now }
{
    let p = asking.check()?;
    if bad_list(a) || bad_list(b) {
        return Err(Refusal::RouteList);
    }
    compare_ready(asking.plan, p, a, b)
}
