// The plan: width, height and one byte of marks a cell. Document 01, "The plan".
#![tactic(auto)]

ghost use Rattle.std.specs.Prelude.{◌≡◌, ◌*◌, ◌<◌};
ghost use Rattle.plan.specs.Plan.{Sized, plan_of, blocked, tap, takes_register, cut_right, cut_below};
ghost use Rattle.plan.specs.Joined.{neighbours_of};
ghost use Rattle.plan.specs.Sides.{ExactNeighbours};
ghost use Rattle.plan.specs.Check.{grid_fault, invalid_mark, mark_fault, checked_plan};

// Width and height are at most this.
pub const SIDE_MAX: u16 = 32;

// Refusals 1, 2 and 3.
#[derive(Clone, Copy)]
pub enum PlanFault {
    Grid,
    Length,
    Mark,
}

// The cells that an uncut wire joins to a cell, in ascending order; where there is none, the number of cells.
// A number for none and no Option: plan_check's tests give 4 for none, and `ExactNeighbours` and `neighbours-exact` of the README speak of it.
#[derive(Clone, Copy, PartialEq, Eq)]
pub struct Neighbours {
    pub up: usize,
    pub left: usize,
    pub right: usize,
    pub down: usize,
}

// Mark 1: keep-out, no gate here.
#[tactic(auto, unfolding(crate::specs::Plan::blocked))]
pub fn is_blocked(marks: u8) -> bool
    ensures { result ≡ blocked marks }
{
    marks % 2 == 1
}

// Mark 2: a clock tap.
#[tactic(auto, unfolding(crate::specs::Plan::tap))]
pub fn is_tap(marks: u8) -> bool
    ensures { result ≡ tap marks }
{
    marks / 2 % 2 == 1
}

// Mark 2 and not mark 1: a register or a FIFO may stand here.
#[tactic(auto, unfolding(crate::specs::Plan::takes_register))]
pub fn takes_register(marks: u8) -> bool
    ensures { result ≡ takes_register marks }
{
    is_tap(marks) && !is_blocked(marks)
}

// Mark 4: the wire to the right neighbour is cut.
#[tactic(auto, unfolding(crate::specs::Plan::cut_right))]
pub fn cuts_right(marks: u8) -> bool
    ensures { result ≡ cut_right marks }
{
    marks / 4 % 2 == 1
}

// Mark 8: the wire to the neighbour below is cut.
#[tactic(auto, unfolding(crate::specs::Plan::cut_below))]
pub fn cuts_below(marks: u8) -> bool
    ensures { result ≡ cut_below marks }
{
    marks / 8 % 2 == 1
}

// Whether the width or the height is 0 or above 32.
#[tactic(auto, unfolding(crate::specs::Check::grid_fault))]
pub fn grid_fault(width: u16, height: u16) -> bool
    ensures { result ≡ grid_fault width height }
{
    width == 0 || SIDE_MAX < width || height == 0 || SIDE_MAX < height
}

// Whether these marks may not stand on the cell: above 15, a 4 in the last column or an 8 in the last row.
#[tactic(auto, unfolding(crate::specs::Check::invalid_mark))]
pub fn invalid_mark(width: u16, height: u16, cell: u16, marks: u8) -> bool
    requires { 0 < width }
    ensures { result ≡ invalid_mark width height cell marks }
{
    15 < marks
        || cell % width + 1 == width && cuts_right(marks)
        || u32::from(cell / width) + 1 == u32::from(height) && cuts_below(marks)
}

// Whether some cell has marks that may not stand on it.
#[tactic(auto, unfolding(crate::specs::Plan::cells, crate::specs::Plan::marks_at, crate::specs::Check::invalid_below, crate::specs::Check::mark_fault))]
fn mark_fault(plan: &[u8], width: u16, height: u16) -> bool
    requires { Sized (plan_of width height plan.now) }
    ensures { result ≡ mark_fault (plan_of width height plan.now) }
{
    for cell in 0..width * height {
        if invalid_mark(width, height, cell, plan[cell as usize]) {
            return true;
        }
    }
    false
}

// The plan's first fault in the order 1, 2, 3, if it has one.
#[tactic(auto, unfolding(crate::specs::Plan::cells, crate::specs::Check::length_fault, crate::specs::Check::checked_plan))]
pub fn check_plan(plan: &[u8], width: u16, height: u16) -> Result<(), PlanFault>
    ensures { result ≡ checked_plan (plan_of width height plan.now) }
{
    if grid_fault(width, height) {
        return Err(PlanFault::Grid);
    }
    if plan.len() != width as usize * height as usize {
        return Err(PlanFault::Length);
    }
    if mark_fault(plan, width, height) {
        return Err(PlanFault::Mark);
    }
    Ok(())
}

// The cell that an uncut wire joins to this one from above, or the number of cells.
#[tactic(auto, unfolding(crate::specs::Plan::cells, crate::specs::Plan::column, crate::specs::Plan::marks_at, crate::specs::Joined::neighbours_of))]
fn above(plan: &[u8], width: usize, height: usize, cell: usize) -> usize
    requires { Sized (plan_of width height plan.now) × (cell < width * height) }
    ensures { result ≡ (neighbours_of (plan_of width height plan.now) cell).up }
{
    if cell < width || cuts_below(plan[cell - width]) {
        width * height
    } else {
        cell - width
    }
}

// The same on the left.
#[tactic(auto, unfolding(crate::specs::Plan::cells, crate::specs::Plan::column, crate::specs::Plan::marks_at, crate::specs::Joined::neighbours_of))]
fn before(plan: &[u8], width: usize, height: usize, cell: usize) -> usize
    requires { Sized (plan_of width height plan.now) × (cell < width * height) }
    ensures { result ≡ (neighbours_of (plan_of width height plan.now) cell).left }
{
    if cell % width == 0 || cuts_right(plan[cell - 1]) {
        width * height
    } else {
        cell - 1
    }
}

// The same on the right.
#[tactic(auto, unfolding(crate::specs::Plan::cells, crate::specs::Plan::column, crate::specs::Plan::marks_at, crate::specs::Joined::neighbours_of))]
fn after(plan: &[u8], width: usize, height: usize, cell: usize) -> usize
    requires { Sized (plan_of width height plan.now) × (cell < width * height) }
    ensures { result ≡ (neighbours_of (plan_of width height plan.now) cell).right }
{
    if width <= cell % width + 1 || cuts_right(plan[cell]) {
        width * height
    } else {
        cell + 1
    }
}

// The same from below.
#[tactic(auto, unfolding(crate::specs::Plan::cells, crate::specs::Plan::column, crate::specs::Plan::marks_at, crate::specs::Joined::neighbours_of))]
fn below(plan: &[u8], width: usize, height: usize, cell: usize) -> usize
    requires { Sized (plan_of width height plan.now) × (cell < width * height) }
    ensures { result ≡ (neighbours_of (plan_of width height plan.now) cell).down }
{
    let cells = width * height;
    if cells <= cell + width || cuts_below(plan[cell]) {
        cells
    } else {
        cell + width
    }
}

// The neighbour step: exactly the cells that an uncut wire joins to the cell, each on its side; where there is none, the number of cells.
// The marks are read from the lent plan. Document 02, C-14: `neighbours-exact` of proofs/Sides.antt.
pub fn neighbours_of(plan: &[u8], width: usize, height: usize, cell: usize) -> Neighbours
    requires { Sized (plan_of width height plan.now) × (cell < width * height) }
    ensures { ExactNeighbours (plan_of width height plan.now) cell result }
{
    Neighbours {
        up: above(plan, width, height, cell),
        left: before(plan, width, height, cell),
        right: after(plan, width, height, cell),
        down: below(plan, width, height, cell),
    }
}
