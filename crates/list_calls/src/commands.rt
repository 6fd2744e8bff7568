// The commands. The calls are the functions below `planner`'s judge, compare and better.
use crate::lines::{write_better, write_verdict};
use crate::words::read_words;
use answers::read_list;
use comparison::{better_asked, compare_asked};
use player::{Net, PlayError, Player};
use question::Asking;
use script::Script;
use std::io::Write;
use verdict::judge_asked;

// judge W H A B N W1 .. WN
pub fn judge<W: Write>(
    out: &mut W,
    script: &mut Script,
    player: &Player,
    plan: &[u8],
    words: &mut [u16],
) -> Result<(), PlayError> {
    let net = Net::read(script)?;
    let list = read_words(script, words)?;
    let asking = Asking {
        plan: &plan[..player.plan.min(plan.len())],
        width: net.width,
        height: net.height,
        tables: player.tables,
        buffers: read_list(player.list),
        source: net.source,
        sink: net.sink,
    };
    let verdict = judge_asked(&asking, list);
    write_verdict(out, verdict, player.session.depth)?;
    Ok(())
}

// better W H A B N W1 .. WN M U1 .. UM: both calls on the two lists.
pub fn better<W: Write>(
    out: &mut W,
    script: &mut Script,
    player: &Player,
    plan: &[u8],
    first: &mut [u16],
    second: &mut [u16],
) -> Result<(), PlayError> {
    let net = Net::read(script)?;
    let a = read_words(script, first)?;
    let b = read_words(script, second)?;
    let plan = &plan[..player.plan.min(plan.len())];
    let asking = Asking {
        plan,
        width: net.width,
        height: net.height,
        tables: player.tables,
        buffers: read_list(player.list),
        source: net.source,
        sink: net.sink,
    };
    let which = compare_asked(&asking, a, b);
    let handed = better_asked(&asking, a, b);
    write_better(out, which, player.session.depth, handed)?;
    Ok(())
}
