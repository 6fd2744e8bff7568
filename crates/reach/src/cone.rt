// The cone: a row of u steps matters only at the cells that are near enough to the cell from which the span is written out.
ghost use Rattle.std.specs.Prelude.{◌+◌, ◌<◌, ◌≡◌};
ghost use Rattle.plan.specs.Apart.{apart_by};
ghost use Rattle.budget.specs.Cone.{in_cone};
ghost use Rattle.reach.specs.Cone.{ListAsks, ListedInside, DropAsks, Dropped};

use layout::{ACTIVE, NEXT};
use lists::{enlist, take_list};
use problem::Problem;
use table::clear_flags;

// The cell's distance from `from` and u steps are at most `most`.
pub fn in_cone(width: usize, from: usize, most: usize, u: usize, cell: usize) -> bool
    requires { 0 < width }
    ensures { result ≡ in_cone (apart_by width from) most u cell }
{
    let rows = (from / width).abs_diff(cell / width);
    let columns = (from % width).abs_diff(cell % width);
    u <= most && rows <= most - u && columns <= most - u - rows
}

// With no flag set, the cells of the active list that are in the cone go to the next list. Its count.
fn list_inside(
    scratch: &mut [u16],
    n: usize,
    active: usize,
    width: usize,
    from: usize,
    most: usize,
    u: usize,
) -> usize
    requires { ListAsks n active width scratch.old }
    ensures { ListedInside n active (in_cone (apart_by width from) most u) scratch.old scratch.new result }
{
    let mut count = 0;
    for i in 0..active {
        let cell = scratch[n * ACTIVE + i] as usize;
        if in_cone(width, from, most, u, cell) {
            count = enlist(scratch, n, n * NEXT, count, cell);
        }
    }
    count
}

// The cells that are not in the cone leave the active list; where the plan is small enough, none is. Its new count.
pub fn drop_outside(
    scratch: &mut [u16],
    n: usize,
    active: usize,
    p: Problem,
    from: usize,
    steps: u32,
    u: u32,
) -> usize
    requires { DropAsks p n active scratch.old }
    ensures { Dropped n (in_cone (apart_by p.width from) (steps + 1) u) scratch.old scratch.new result }
{
    let most = steps as usize + 1;
    if u as usize + p.width + p.height <= most + 2 {
        return active;
    }
    clear_flags(scratch, n, active);
    let count = list_inside(scratch, n, active, p.width, from, most, u as usize);
    take_list(scratch, n, count);
    count
}
