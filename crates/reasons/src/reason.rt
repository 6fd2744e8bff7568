// The reason of a problem that the checks have passed. The scratch words are zero afterwards.
// One pass by delay finds the first period. Where it takes long, searches do, at most 17: one at the problem's own period, one at 30,000, then at most 15 for the smallest period or at most two with looser tables.
ghost use Rattle.std.specs.Prelude.{◌≡◌, false, ◌<◌, length};
ghost use Rattle.timing.specs.Ranges.{period_max};
ghost use Rattle.problem.specs.Problem.{Ready};
ghost use Rattle.table.specs.Problem.{Room};
ghost use Rattle.reasons.specs.Probe.{Told, routed_for, smallest_for, reason_of, explained_by, ReasonDone};

use crate::period::smallest_period;
use crate::probe::exists_with;
use answers::{Explained, Reason, Refusal};
use earliest::{First, first_period};
use layout::CELL_WORDS;
use problem::Problem;
use rows::clear;
use timing::Elements;

// The turns of the pass, some two milliseconds. The plans on which searches take long by far, the ladders, need 6,100.
const TURNS: usize = 10_000;

// Why there is none, of a problem that has no route at any period.
fn why_never(plan: &[u8], scratch: &mut [u16], p: Problem) -> Reason
    requires { Ready p plan.now × (Room (length plan.now) scratch.old × (period_max < smallest_for p plan.now)) }
    ensures { Told (reason_of p plan.now) (length plan.now) scratch.old scratch.new result }
{
    if exists_with(plan, scratch, p, p.elements.relaxed(true)) {
        return Reason::TooShort;
    }
    if exists_with(plan, scratch, p, p.elements.relaxed(false)) {
        return Reason::Load;
    }
    Reason::WalledOff
}

// Why there is none, of a problem that has no route at its own period.
fn why_none(plan: &[u8], scratch: &mut [u16], p: Problem) -> Reason
    requires { Ready p plan.now × (Room (length plan.now) scratch.old × (routed_for p plan.now p.elements.period ≡ false)) }
    ensures { Told (reason_of p plan.now) (length plan.now) scratch.old scratch.new result }
{
    let longest = Elements::PERIOD_MAX;
    if exists_with(plan, scratch, p, p.elements.at_period(longest)) {
        let period = smallest_period(plan, scratch, p, p.elements.period, longest);
        return Reason::Period(period);
    }
    why_never(plan, scratch, p)
}

// 19, or the reason, by searches.
fn searched(plan: &[u8], scratch: &mut [u16], p: Problem) -> Explained
    requires { Ready p plan.now × Room (length plan.now) scratch.old }
    ensures { Told (explained_by p plan.now) (length plan.now) scratch.old scratch.new result }
{
    if exists_with(plan, scratch, p, p.elements) {
        return Err(Refusal::RouteExists);
    }
    Ok(why_none(plan, scratch, p))
}

// 19, or the reason.
fn explained(plan: &[u8], scratch: &mut [u16], p: Problem) -> Explained
    requires { Ready p plan.now × Room (length plan.now) scratch.old }
    ensures { Told (explained_by p plan.now) (length plan.now) scratch.old scratch.new result }
{
    match first_period(plan, scratch, p, TURNS) {
        First::Unknown => searched(plan, scratch, p),
        First::Never => Ok(why_never(plan, scratch, p)),
        First::At(period) if period == p.elements.period => Err(Refusal::RouteExists),
        First::At(period) => Ok(Reason::Period(period)),
    }
}

pub fn reason_ready(plan: &[u8], scratch: &mut [u16], p: Problem) -> Explained
    requires { Ready p plan.now × Room (length plan.now) scratch.old }
    ensures { ReasonDone p plan.now scratch.old scratch.new result }
{
    let answer = explained(plan, scratch, p);
    clear(scratch, 0, plan.len() * CELL_WORDS);
    answer
}
