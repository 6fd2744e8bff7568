// The session's calls for outsiders: open, move and undo.
#![tactic(auto)]

ghost use Rattle.session.specs.Steps.{state_of, Opened, Moved, Undone};

use session::{Session, SessionRefusal, SessionStep, open_at, set_marks_at, undo_at};

// Opens a session on a plan: the journal's first 1,024 bytes become zero, the record has depth 0. A refused opening gives a record of zeros.
// `Opened` says the answer, the record and what is left in the journal, refusals included; `session_number` the answer's number.
pub fn open(plan: &[u8], width: u16, height: u16, journal: &mut [u8]) -> SessionStep
    ensures { Opened width height plan.now journal.old journal.new result }
{
    open_at(plan, width, height, journal)
}

// A move (document 01's word; `move` is a keyword): sets one cell's marks, adds an entry to the journal, adds 1 to the depth.
// `Moved` says the answer, the record and what is left in the plan and the journal, refusals included.
pub fn set_marks(
    s: &mut Session,
    plan: &mut [u8],
    journal: &mut [u8],
    cell: u16,
    marks: u8,
) -> Result<(), SessionRefusal>
    ensures { Moved (state_of s.old plan.old journal.old) cell marks (state_of s.new plan.new journal.new) result }
{
    let m = set_marks_at(*s, plan, journal, cell, marks);
    *s = m.session;
    m.answer
}

// Takes the newest move back: its old marks, its entry zero, 1 off the depth.
// `Undone` says the answer, the record and what is left in the plan and the journal, refusals included.
pub fn undo(s: &mut Session, plan: &mut [u8], journal: &mut [u8]) -> Result<(), SessionRefusal>
    ensures { Undone (state_of s.old plan.old journal.old) (state_of s.new plan.new journal.new) result }
{
    let m = undo_at(*s, plan, journal);
    *s = m.session;
    m.answer
}
