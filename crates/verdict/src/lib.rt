// The verdict on a route list from outside: document 02, C-11. Its whole effect is specs/Verdict.antt.
#![tactic(auto)]

ghost use Rattle.std.specs.Prelude.{◌≡◌};
ghost use Rattle.question.specs.Asked.{asked};
ghost use Rattle.verdict.specs.Verdict.{verdict_of};

use answers::{Refusal, Verdict};
use question::Asking;

mod gates;
mod list;
mod sites;
mod visits;
mod wires;

pub use list::{bad_list, judge_ready};

// Refusals 1 to 5, then 17, then the verdict on the visits.
pub fn judge_asked(asking: &Asking, words: &[u16]) -> Verdict
    ensures { result ≡ verdict_of (asked asking.now) words.now }
{
    let p = asking.check()?;
    if bad_list(words) {
        return Err(Refusal::RouteList);
    }
    Ok(judge_ready(asking.plan, p, words))
}
