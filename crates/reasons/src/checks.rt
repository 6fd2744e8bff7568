// The call: refusals 1 to 6 as a route's, then 19 or the reason.
ghost use Rattle.question.specs.Asked.{asked};
ghost use Rattle.reasons.specs.Reasons.{Explaining};

use crate::reason::reason_ready;
use answers::{Explained, Refusal};
use layout::CELL_WORDS;
use question::Asking;

// Its whole effect, refused or not, is specs/Reasons.antt.
pub fn explain_asked(asking: &Asking, scratch: &mut [u16]) -> Explained
    ensures { Explaining (asked asking.now) scratch.old scratch.new result }
{
    let p = asking.check()?;
    if scratch.len() < asking.plan.len() * CELL_WORDS {
        return Err(Refusal::Scratch);
    }
    reason_ready(asking.plan, scratch, p)
}
