// The commands of a script, one after the other.
use crate::calls::{open, route, set_marks, show, undo};
use crate::lines::write_bad;
use crossing_call::crossing;
use explain_call::reason;
use list_calls::{better, judge};
use player::{PlayError, Player};
use script::Script;
use std::io::{self, Write};

// The command that a word names. No struct of the six slices: a call that takes two fields of one gets no proof.
fn command<W: Write>(
    out: &mut W,
    word: &[u8],
    script: &mut Script,
    player: &mut Player,
    plan: &mut [u8],
    journal: &mut [u8],
    scratch: &mut [u16],
    visits: &mut [u16],
    first: &mut [u16],
    second: &mut [u16],
) -> Result<(), PlayError> {
    match word {
        b"route" => route(out, script, player, plan, scratch, visits),
        b"crossing" => crossing(out, script, player, plan, scratch, visits),
        b"reason" => reason(out, script, player, plan, scratch),
        b"show" => show(out, player, plan, journal, scratch, visits),
        b"judge" => judge(out, script, player, plan, first),
        b"better" => better(out, script, player, plan, first, second),
        b"move" => set_marks(out, script, player, plan, journal),
        b"undo" => undo(out, player, plan, journal),
        b"open" => open(out, script, player, plan, journal),
        _ => {
            player.lend(word, script, plan, journal)?;
            Ok(())
        }
    }
}

// All commands. Each reads a byte or more, so that there are no more of them than bytes.
fn commands<W: Write>(
    out: &mut W,
    bytes: usize,
    script: &mut Script,
    plan: &mut [u8],
    journal: &mut [u8],
    scratch: &mut [u16],
    visits: &mut [u16],
    first: &mut [u16],
    second: &mut [u16],
) -> Result<(), PlayError> {
    let mut player = Player::new();
    for _ in 0..bytes {
        let Some(word) = script.word() else {
            return Ok(());
        };
        command(
            out,
            word,
            script,
            &mut player,
            plan,
            journal,
            scratch,
            visits,
            first,
            second,
        )?;
    }
    Ok(())
}

// Plays the script; a line that is not written ends the play, and where the script is wrong, a line says how and nothing more is played.
pub fn play<W: Write>(
    out: &mut W,
    text: &[u8],
    plan: &mut [u8],
    journal: &mut [u8],
    scratch: &mut [u16],
    visits: &mut [u16],
    first: &mut [u16],
    second: &mut [u16],
) -> io::Result<()> {
    let mut script = Script::new(text);
    let played = commands(
        out,
        text.len(),
        &mut script,
        plan,
        journal,
        scratch,
        visits,
        first,
        second,
    );
    match played {
        Ok(()) => Ok(()),
        Err(PlayError::Script(fault)) => write_bad(out, script.line(), fault),
        Err(PlayError::Output(error)) => Err(error),
    }
}
