// The commands that call and the one that shows.
use crate::lines::{write_bytes, write_line};
use player::{Net, PlayError, Player, UNUSED, VISIT_WORDS};
use report::{write_answer, write_call};
use route_call::{Call, ask};
use script::Script;
use session::{SessionStep, open_at, session_number, set_marks_at, undo_at};
use std::io::{self, Write};
use streams::write_text;

// The line of a session call, and its record kept.
fn stepped<W: Write>(
    out: &mut W,
    name: &[u8],
    step: SessionStep,
    player: &mut Player,
) -> io::Result<()> {
    player.session = step.session;
    write_call(out, name, session_number(step.answer), step.session.depth)?;
    write_text(out, b"\n")
}

// open W H
pub fn open<W: Write>(
    out: &mut W,
    script: &mut Script,
    player: &mut Player,
    plan: &[u8],
    journal: &mut [u8],
) -> Result<(), PlayError> {
    let width = script.number()?;
    let height = script.number()?;
    let n = player.plan.min(plan.len());
    let m = player.journal.min(journal.len());
    let step = open_at(&plan[..n], width, height, &mut journal[..m]);
    stepped(out, b"open", step, player)?;
    Ok(())
}

// move CELL MARKS
pub fn set_marks<W: Write>(
    out: &mut W,
    script: &mut Script,
    player: &mut Player,
    plan: &mut [u8],
    journal: &mut [u8],
) -> Result<(), PlayError> {
    let cell = script.number()?;
    let marks = script.number()?;
    let n = player.plan.min(plan.len());
    let m = player.journal.min(journal.len());
    let step = set_marks_at(
        player.session,
        &mut plan[..n],
        &mut journal[..m],
        cell,
        marks,
    );
    stepped(out, b"move", step, player)?;
    Ok(())
}

// undo
pub fn undo<W: Write>(
    out: &mut W,
    player: &mut Player,
    plan: &mut [u8],
    journal: &mut [u8],
) -> Result<(), PlayError> {
    let n = player.plan.min(plan.len());
    let m = player.journal.min(journal.len());
    let step = undo_at(player.session, &mut plan[..n], &mut journal[..m]);
    stepped(out, b"undo", step, player)?;
    Ok(())
}

// route W H A B V, with fresh words
pub fn route<W: Write>(
    out: &mut W,
    script: &mut Script,
    player: &Player,
    plan: &[u8],
    scratch: &mut [u16],
    visits: &mut [u16],
) -> Result<(), PlayError> {
    let net = Net::read(script)?;
    let room = script.number_to(VISIT_WORDS as u32)? as usize;
    let call = Call {
        width: net.width,
        height: net.height,
        tables: player.tables,
        list: player.list,
        source: net.source,
        sink: net.sink,
        scratch: player.scratch,
        visits: room,
    };
    scratch.fill(UNUSED);
    visits.fill(UNUSED);
    let answer = ask(&plan[..player.plan.min(plan.len())], call, scratch, visits);
    let depth = player.session.depth;
    write_answer(out, b"route", answer, depth, visits, scratch)?;
    Ok(())
}

// show: all that is lent, in four lines
pub fn show<W: Write>(
    out: &mut W,
    player: &Player,
    plan: &[u8],
    journal: &[u8],
    scratch: &[u16],
    visits: &[u16],
) -> Result<(), PlayError> {
    let n = player.plan.min(plan.len());
    let m = player.journal.min(journal.len());
    write_bytes(out, b"plan", &plan[..n])?;
    write_bytes(out, b"journal", &journal[..m])?;
    write_line(out, b"scratch", scratch)?;
    write_line(out, b"visits", visits)?;
    Ok(())
}
