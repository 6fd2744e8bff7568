// The session player's command that asks why there is no route, and what it prints.
#![tactic(auto)]

ghost use Rattle.std.specs.Prelude.{◌≡◌, length, take};
ghost use Rattle.question.specs.Question.{question_of};
ghost use Rattle.reasons.specs.Reasons.{explained_of};

use answers::{Explained, Numbered, Reason, read_list};
use player::{Net, PlayError, Player, UNUSED};
use question::Asking;
use reasons::explain_asked;
use report::{write_call, write_element, write_zeroed};
use script::Script;
use std::io::{self, Write};
use streams::{write_number, write_text};

fn write_reason<W: Write>(out: &mut W, reason: Reason) -> io::Result<()> {
    match reason {
        Reason::WalledOff => write_text(out, b" walled"),
        Reason::Load => write_text(out, b" load"),
        Reason::Period(t) => {
            write_text(out, b" period")?;
            write_number(out, t as u64)
        }
        Reason::TooShort => write_text(out, b" short"),
    }
}

fn write_explained<W: Write>(out: &mut W, explained: Explained) -> io::Result<()> {
    match explained {
        Ok(reason) => write_reason(out, reason),
        Err(r) => write_element(out, r),
    }
}

// The call on the first bytes of the plan and the first scratch words.
fn explained_of(net: Net, player: &Player, plan: &[u8], scratch: &mut [u16]) -> Explained
    ensures { result ≡ explained_of (question_of (take player.now.plan plan.now) net.width net.height player.now.tables player.now.list net.source net.sink) (length (take player.now.scratch scratch.old)) }
{
    let n = player.plan.min(plan.len());
    let s = player.scratch.min(scratch.len());
    let asking = Asking {
        plan: &plan[..n],
        width: net.width,
        height: net.height,
        tables: player.tables,
        buffers: read_list(player.list),
        source: net.source,
        sink: net.sink,
    };
    explain_asked(&asking, &mut scratch[..s])
}

// reason W H A B, with fresh words
pub fn reason<W: Write>(
    out: &mut W,
    script: &mut Script,
    player: &Player,
    plan: &[u8],
    scratch: &mut [u16],
) -> Result<(), PlayError> {
    let net = Net::read(script)?;
    scratch.fill(UNUSED);
    let explained = explained_of(net, player, plan, scratch);
    write_call(out, b"reason", explained.number(), player.session.depth)?;
    write_explained(out, explained)?;
    write_zeroed(out, scratch)?;
    Ok(())
}
