// A question about a plan: refusals 1 to 5 in their order, and the routing problem where they pass.
#![tactic(auto)]

ghost use Rattle.std.specs.Prelude.{◌≡◌, ◌*◌, ◌≤◌};
ghost use Rattle.plan.specs.Plan.{plan_of};
ghost use Rattle.plan.specs.Check.{checked_plan};
ghost use Rattle.answers.specs.Ends.{ends_fault};
ghost use Rattle.answers.specs.declared.records.BufferList.{BufferList};
ghost use Rattle.answers.specs.declared.records.Tables.{Tables};
ghost use Rattle.answers.specs.declared.refusal.Refusal.{Refusal};
ghost use Rattle.question.specs.Question.{passes, after_plan, or_else, question_of};
ghost use Rattle.question.specs.Checked.{checked_as, checked_with};

mod asking;

use answers::{Fault, Refusal, ends_fault};
pub use asking::Asking;
use plan::check_plan;
use problem::Problem;
use timing::Elements;

// Refusals 1 to 3.
fn check_sides(plan: &[u8], width: u16, height: u16) -> Result<(), Refusal>
    ensures { result ≡ checked_as (after_plan (checked_plan (plan_of width height plan.now)) passes) tt }
{
    check_plan(plan, width, height)?;
    Ok(())
}

// Refusal 5, on a plan of these sides; and the problem of the elements.
fn check_ends(
    width: u16,
    height: u16,
    elements: Elements,
    source: u16,
    sink: u16,
) -> Result<Problem, Refusal>
    requires { width * height ≤ 65535 }
    ensures { result ≡ checked_as (or_else (ends_fault (width * height) source sink) Refusal.Ends passes) (record { width = width; height = height; source = source; sink = sink; elements = elements }) }
{
    if ends_fault(width * height, source, sink) {
        return Err(Refusal::Ends);
    }
    Ok(Problem {
        width: width as usize,
        height: height as usize,
        source: source as usize,
        sink: sink as usize,
        elements,
    })
}

// The checks with the fault of the tables, of one clock or two, and their elements, which are read only where nothing is at fault.
// They hold for every question with this plan and these ends.
pub fn check_with(
    plan: &[u8],
    width: u16,
    height: u16,
    fault: Option<Fault>,
    elements: Elements,
    source: u16,
    sink: u16,
) -> Result<Problem, Refusal>
    ensures { (t : Tables) → (list : BufferList) → result ≡ checked_with fault elements (question_of plan.now width height t list source sink) }
{
    check_sides(plan, width, height)?;
    if let Some(fault) = fault {
        return Err(Refusal::Element(fault));
    }
    check_ends(width, height, elements, source, sink)
}
