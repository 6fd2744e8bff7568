// What a session holds beside its plan and journal, and what its calls answer. Document 01, "Calls and what they leave".
ghost use Rattle.std.specs.Prelude.{◌≡◌};
ghost use Rattle.session.specs.Numbers.{refusal_number, session_number};
ghost use Rattle.session.specs.Answers.{plan_refusal};

use plan::PlanFault;

// The session record: the plan's sides and the number of moves in the journal.
#[derive(Clone, Copy)]
pub struct Session {
    pub width: u16,
    pub height: u16,
    pub depth: u16,
}

// Why open, set_marks or undo is refused. An answer is Ok, or one of these.
#[derive(Clone, Copy)]
pub enum SessionRefusal {
    Grid,
    // plan length
    Length,
    // stray mark, in the plan or in a move's new marks
    Mark,
    // history short
    JournalShort,
    // depth above 256
    Depth,
    // history full
    JournalFull,
    NothingToUndo,
    // torn history
    CorruptJournal,
    // move: the cell is not in the plan
    Cell,
}

impl From<PlanFault> for SessionRefusal {
    ghost from_gives = { λ f r. r ≡ plan_refusal f };

    fn from(fault: PlanFault) -> SessionRefusal {
        match fault {
            PlanFault::Grid => SessionRefusal::Grid,
            PlanFault::Length => SessionRefusal::Length,
            PlanFault::Mark => SessionRefusal::Mark,
        }
    }
}

impl SessionRefusal {
    // Document 01's number.
    pub fn number(self) -> u16
        ensures { result ≡ refusal_number self }
    {
        match self {
            SessionRefusal::Grid => 1,
            SessionRefusal::Length => 2,
            SessionRefusal::Mark => 3,
            SessionRefusal::JournalShort => 9,
            SessionRefusal::Depth => 10,
            SessionRefusal::JournalFull => 11,
            SessionRefusal::NothingToUndo => 12,
            SessionRefusal::CorruptJournal => 13,
            SessionRefusal::Cell => 14,
        }
    }
}

// Document 01's number of an answer, 0 where the call is not refused.
pub fn session_number(answer: Result<(), SessionRefusal>) -> u16
    ensures { result ≡ session_number answer }
{
    match answer {
        Ok(()) => 0,
        Err(refusal) => refusal.number(),
    }
}

// An answer and the session record after the call. A refused opening gives a record too, of zeros (document 01), so the record is no part of the Ok.
#[derive(Clone, Copy)]
pub struct SessionStep {
    pub answer: Result<(), SessionRefusal>,
    pub session: Session,
}
