// The answers of the session's calls: refusals in document 01's orders. Nothing is changed here.
ghost use Rattle.std.specs.Prelude.{◌≡◌};
ghost use Rattle.plan.specs.Plan.{Sized, plan_of};
ghost use Rattle.session.specs.Answers.{open_answer, session_answer, move_answer, corrupt, undo_answer};

use crate::journal::{ENTRY_BYTES, Entry, JOURNAL_BYTES, read_entry};
use crate::records::{Session, SessionRefusal};
use plan::{check_plan, invalid_mark};

// Moves in a full journal.
pub const DEPTH_MAX: u16 = 256;

// 1, 2, 3, 9. `room` is the journal's length.
#[tactic(auto, unfolding(crate::specs::Answers::after, crate::specs::Answers::check_answer, crate::specs::Answers::plan_answer, crate::specs::Answers::open_answer))]
pub fn open_answer(plan: &[u8], width: u16, height: u16, room: usize) -> Result<(), SessionRefusal>
    ensures { result ≡ open_answer width height plan.now room }
{
    check_plan(plan, width, height)?;
    if room < JOURNAL_BYTES {
        return Err(SessionRefusal::JournalShort);
    }
    Ok(())
}

// 1, 2, 3, 9, 10: what moves and undos share.
#[tactic(auto, unfolding(crate::specs::Answers::after, crate::specs::Answers::session_answer))]
fn session_answer(s: Session, plan: &[u8], room: usize) -> Result<(), SessionRefusal>
    ensures { result ≡ session_answer s plan.now room }
{
    open_answer(plan, s.width, s.height, room)?;
    if DEPTH_MAX < s.depth {
        return Err(SessionRefusal::Depth);
    }
    Ok(())
}

// 1, 2, 3 (plan), 9, 10, 14, 3 (new marks), 11.
#[tactic(auto, unfolding(crate::specs::Answers::after, crate::specs::Answers::move_answer, plan::specs::Plan::cells))]
pub fn move_answer(
    s: Session,
    plan: &[u8],
    room: usize,
    cell: u16,
    marks: u8,
) -> Result<(), SessionRefusal>
    ensures { result ≡ move_answer s plan.now room cell marks }
{
    session_answer(s, plan, room)?;
    if s.width * s.height <= cell {
        return Err(SessionRefusal::Cell);
    }
    if invalid_mark(s.width, s.height, cell, marks) {
        return Err(SessionRefusal::Mark);
    }
    if DEPTH_MAX <= s.depth {
        return Err(SessionRefusal::JournalFull);
    }
    Ok(())
}

// Whether the entry is none that a move on this plan has left.
#[tactic(auto, unfolding(crate::specs::Answers::corrupt, plan::specs::Plan::cells))]
fn is_corrupt(plan: &[u8], width: u16, height: u16, entry: Entry) -> bool
    requires { Sized (plan_of width height plan.now) }
    ensures { result ≡ corrupt width height plan.now entry }
{
    width * height <= entry.cell
        || invalid_mark(width, height, entry.cell, entry.old)
        || plan[entry.cell as usize] != entry.new
}

// 1, 2, 3, 9, 10, 12, 13.
#[tactic(auto, unfolding(crate::specs::Answers::after, crate::specs::Answers::newest_at, crate::specs::Answers::undo_answer))]
pub fn undo_answer(s: Session, plan: &[u8], journal: &[u8]) -> Result<(), SessionRefusal>
    ensures { result ≡ undo_answer s plan.now journal.now }
{
    session_answer(s, plan, journal.len())?;
    if s.depth == 0 {
        return Err(SessionRefusal::NothingToUndo);
    }
    let newest = read_entry(journal, (s.depth as usize - 1) * ENTRY_BYTES);
    if is_corrupt(plan, s.width, s.height, newest) {
        return Err(SessionRefusal::CorruptJournal);
    }
    Ok(())
}
