// Lists of cells in the scratch words, with a flag a cell that says whether it is listed (`layout::LISTED`).
#![tactic(auto)]

ghost use Rattle.std.specs.Prelude.{◌+◌, ◌*◌, ◌≤◌, ◌<◌, length};
ghost use Rattle.layout.specs.Layout.{next_at, listed_at, seeds_at};
ghost use Rattle.lists.specs.Lists.{Listed, Enlisted, Taken};

use layout::{ACTIVE, LISTED, NEXT};

// The cell joins the list at `list`, of `count` cells, unless its flag says that it is listed. The new count.
pub fn enlist(scratch: &mut [u16], n: usize, list: usize, count: usize, cell: usize) -> usize
    requires { Listed n scratch.old list count × ((cell < n) × ((n ≤ 1024) × ((list + n ≤ n * listed_at) × (n * seeds_at ≤ length scratch.old)))) }
    ensures { Enlisted n list count cell scratch.old scratch.new result }
{
    let flag = n * LISTED + cell;
    if scratch[flag] == 1 {
        return count;
    }
    scratch[flag] = 1;
    scratch[list + count] = cell as u16;
    count + 1
}

// The next list becomes the active list.
pub fn take_list(scratch: &mut [u16], n: usize, count: usize)
    requires { Listed n scratch.old (n * next_at) count × ((n ≤ 1024) × (n * seeds_at ≤ length scratch.old)) }
    ensures { Taken n count scratch.old scratch.new }
{
    scratch.copy_within(n * NEXT..n * NEXT + count, n * ACTIVE);
}
