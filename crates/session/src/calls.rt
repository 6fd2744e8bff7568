// The session's calls, with the record by value. Their whole effect, refused or not, is specs/Steps.antt.
ghost use Rattle.session.specs.Steps.{state_of, Opened, Moved, Undone};

use crate::checks::{move_answer, open_answer, undo_answer};
use crate::journal::{ENTRY_BYTES, Entry, clear_journal, read_entry, write_entry};
use crate::records::{Session, SessionStep};

// Opens a session on a plan: the journal's used bytes become zero, depth 0. A refused opening gives a record of zeros.
#[tactic(auto, unfolding(crate::specs::Steps::effect, crate::specs::Steps::opened))]
pub fn open_at(plan: &[u8], width: u16, height: u16, journal: &mut [u8]) -> SessionStep
    ensures { Opened width height plan.now journal.old journal.new result }
{
    if let Err(refusal) = open_answer(plan, width, height, journal.len()) {
        return SessionStep {
            answer: Err(refusal),
            session: Session {
                width: 0,
                height: 0,
                depth: 0,
            },
        };
    }
    clear_journal(journal);
    SessionStep {
        answer: Ok(()),
        session: Session {
            width,
            height,
            depth: 0,
        },
    }
}

// A move: sets one cell's marks, adds an entry, adds 1 to the depth.
#[tactic(auto, unfolding(crate::specs::Steps::effect, crate::specs::Steps::move_entry, crate::specs::Steps::with_move, crate::specs::Steps::moved, plan::specs::Plan::cells))]
pub fn set_marks_at(
    s: Session,
    plan: &mut [u8],
    journal: &mut [u8],
    cell: u16,
    marks: u8,
) -> SessionStep
    ensures { Moved (state_of s plan.old journal.old) cell marks (state_of result.session plan.new journal.new) result.answer }
{
    if let Err(refusal) = move_answer(s, plan, journal.len(), cell, marks) {
        return SessionStep {
            answer: Err(refusal),
            session: s,
        };
    }
    let entry = Entry {
        cell,
        old: plan[cell as usize],
        new: marks,
    };
    plan[cell as usize] = marks;
    write_entry(journal, s.depth as usize * ENTRY_BYTES, entry);
    SessionStep {
        answer: Ok(()),
        session: Session {
            depth: s.depth + 1,
            ..s
        },
    }
}

// Takes the newest move back: its old marks, its entry zero, 1 off the depth.
#[tactic(auto, unfolding(crate::specs::Answers::newest_at, crate::specs::Steps::effect, crate::specs::Steps::with_undo, crate::specs::Steps::undone, plan::specs::Plan::cells))]
pub fn undo_at(s: Session, plan: &mut [u8], journal: &mut [u8]) -> SessionStep
    ensures { Undone (state_of s plan.old journal.old) (state_of result.session plan.new journal.new) result.answer }
{
    if let Err(refusal) = undo_answer(s, plan, journal) {
        return SessionStep {
            answer: Err(refusal),
            session: s,
        };
    }
    let at = (s.depth as usize - 1) * ENTRY_BYTES;
    let newest = read_entry(journal, at);
    plan[newest.cell as usize] = newest.old;
    let none = Entry {
        cell: 0,
        old: 0,
        new: 0,
    };
    write_entry(journal, at, none);
    SessionStep {
        answer: Ok(()),
        session: Session {
            depth: s.depth - 1,
            ..s
        },
    }
}
