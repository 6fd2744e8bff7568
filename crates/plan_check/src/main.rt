// The plan's functions at their boundary values.
#![tactic(auto)]

ghost use Rattle.std.specs.Prelude.{◌≡◌};
ghost use Rattle.plan.specs.Plan.{plan_of};
ghost use Rattle.plan.specs.Check.{checked_plan};
ghost use Rattle.plan_check.specs.Number.{check_number};

use plan::{Neighbours, PlanFault};

// Document 01's number for the answer of the check.
#[tactic(auto, unfolding(crate::specs::Number::check_number))]
fn refusal(plan: &[u8], width: u16, height: u16) -> u8
    ensures { result ≡ check_number (checked_plan (plan_of width height plan.now)) }
{
    match plan::check_plan(plan, width, height) {
        Ok(()) => 0,
        Err(PlanFault::Grid) => 1,
        Err(PlanFault::Length) => 2,
        Err(PlanFault::Mark) => 3,
    }
}

#[tactic(auto, unfolding(plan::specs::Plan::blocked, plan::specs::Plan::tap, plan::specs::Plan::takes_register, plan::specs::Plan::cut_right, plan::specs::Plan::cut_below))]
fn marks() {
    check::expect(plan::is_blocked(1));
    check::expect(!plan::is_blocked(14));
    check::expect(plan::is_tap(2));
    check::expect(!plan::is_tap(13));
    check::expect(plan::takes_register(14));
    check::expect(!plan::takes_register(12));
    check::expect(!plan::takes_register(3));
    check::expect(plan::cuts_right(4));
    check::expect(!plan::cuts_right(11));
    check::expect(plan::cuts_below(8));
    check::expect(!plan::cuts_below(7));
}

#[tactic(auto, unfolding(plan::specs::Check::grid_fault))]
fn grids() {
    check::expect(plan::grid_fault(0, 1));
    check::expect(!plan::grid_fault(1, 1));
    check::expect(!plan::grid_fault(32, 32));
    check::expect(plan::grid_fault(33, 1));
    check::expect(plan::grid_fault(1, 0));
    check::expect(plan::grid_fault(1, 33));
}

// A plan 3 wide and 2 high.
#[tactic(auto, unfolding(plan::specs::Plan::cut_right, plan::specs::Plan::cut_below, plan::specs::Check::invalid_mark))]
fn invalid_marks() {
    check::expect(!plan::invalid_mark(3, 2, 1, 15));
    check::expect(plan::invalid_mark(3, 2, 1, 16));
    check::expect(!plan::invalid_mark(3, 2, 1, 4));
    check::expect(plan::invalid_mark(3, 2, 2, 4));
    check::expect(!plan::invalid_mark(3, 2, 2, 8));
    check::expect(plan::invalid_mark(3, 2, 3, 8));
}

// 2 by 2: a grid fault comes before the length, and the length before a mark.
#[tactic(auto, unfolding(crate::specs::Number::check_number, plan::specs::Plan::cells, plan::specs::Plan::marks_at, plan::specs::Plan::cut_right, plan::specs::Plan::cut_below, plan::specs::Check::grid_fault, plan::specs::Check::length_fault, plan::specs::Check::invalid_mark, plan::specs::Check::invalid_below, plan::specs::Check::mark_fault, plan::specs::Check::checked_plan))]
fn checks() {
    let valid: [u8; 4] = [15, 8, 4, 3];
    let last_column: [u8; 4] = [15, 4, 4, 3];
    let last_row: [u8; 4] = [15, 8, 4, 8];
    let short: [u8; 3] = [16, 0, 0];
    let long: [u8; 5] = [16, 0, 0, 0, 0];
    check::expect(refusal(&valid, 2, 2) == 0);
    check::expect(refusal(&valid, 2, 0) == 1);
    check::expect(refusal(&short, 2, 2) == 2);
    check::expect(refusal(&long, 2, 2) == 2);
    check::expect(refusal(&last_column, 2, 2) == 3);
    check::expect(refusal(&last_row, 2, 2) == 3);
}

fn sides_of(up: usize, left: usize, right: usize, down: usize) -> Neighbours
    ensures { result ≡ record { up = up; left = left; right = right; down = down } }
{
    Neighbours {
        up,
        left,
        right,
        down,
    }
}

// Corners of a plan 2 by 2, the middle of a strip 1 wide, and a cell with cuts on both sides.
#[tactic(auto, unfolding(plan::specs::Plan::cells, plan::specs::Plan::column, plan::specs::Plan::marks_at, plan::specs::Plan::cut_right, plan::specs::Plan::cut_below, plan::specs::Joined::neighbours_of))]
fn sides() {
    let open: [u8; 4] = [0, 0, 0, 0];
    check::expect(plan::neighbours_of(&open, 2, 2, 0) == sides_of(4, 4, 1, 2));
    check::expect(plan::neighbours_of(&open, 2, 2, 3) == sides_of(1, 2, 4, 4));
    let strip: [u8; 3] = [0, 0, 0];
    check::expect(plan::neighbours_of(&strip, 1, 3, 1) == sides_of(0, 3, 3, 2));
    let cut: [u8; 3] = [4, 4, 0];
    check::expect(plan::neighbours_of(&cut, 3, 1, 1) == sides_of(3, 3, 3, 3));
}

fn main() {
    marks();
    grids();
    invalid_marks();
    checks();
    sides();
}
