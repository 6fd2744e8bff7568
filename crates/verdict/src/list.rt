// A list of words: cell, code, cell, code, ..
ghost use Rattle.std.specs.Prelude.{false, ◌≡◌};
ghost use Rattle.problem.specs.Problem.{rules_for, Ready};
ghost use Rattle.verdict.specs.Verdict.{route_in, bad_list, judge_route};
ghost use Rattle.verdict.specs.Visits.{Judging};

use crate::gates::Point;
use crate::visits::{judge_first, judge_visit};
use answers::Finding;
use problem::Problem;

// Refusal 17: an odd number of words, or under two visits.
pub fn bad_list(words: &[u16]) -> bool
    ensures { result ≡ bad_list words.now }
{
    words.len() % 2 == 1 || words.len() < 4
}

// The visits after the first, from the point after it. By number, which a fault tells.
fn judge_rest(plan: &[u8], p: Problem, words: &[u16], start: Point) -> Finding
    requires { Ready p plan.now × ((bad_list words.now ≡ false) × Judging p plan.now words.now 1 start) }
    ensures { result ≡ judge_route (rules_for p plan.now) (route_in words.now) }
{
    let n = words.len() / 2;
    let mut at = start;
    for i in 1..n {
        let last = i + 1 == n;
        match judge_visit(plan, p, at, last, words[2 * i] as usize, words[2 * i + 1]) {
            Ok(to) => at = to,
            Err(f) => return Finding::AtFault(i, f),
        }
    }
    Finding::Accepted(at.slack)
}

// The verdict on a list that is not refused, of a problem that the checks have passed.
pub fn judge_ready(plan: &[u8], p: Problem, words: &[u16]) -> Finding
    requires { Ready p plan.now × (bad_list words.now ≡ false) }
    ensures { result ≡ judge_route (rules_for p plan.now) (route_in words.now) }
{
    match judge_first(plan, p, words[0] as usize, words[1]) {
        Ok(start) => judge_rest(plan, p, words, start),
        Err(f) => Finding::AtFault(0, f),
    }
}
