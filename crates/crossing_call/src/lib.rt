// The session player's command that asks for a route between two clocks, and what it prints.
#![tactic(auto)]

ghost use Rattle.std.specs.Prelude.{◌≡◌, take};
ghost use Rattle.question.specs.Crossing.{crossing_of};
ghost use Rattle.crossing_router.specs.Route.{crossing_answer_of};

use answers::{CrossingAnswer, read_list};
use crossing_router::route_crossing_asked;
use player::{Net, PlayError, Player, UNUSED, VISIT_WORDS};
use question::Asking;
use report::write_answer;
use script::Script;
use std::io::Write;

// The call on the first bytes of the plan, the first scratch words and the first `room` visit words.
fn crossing_of(
    net: Net,
    player: &Player,
    room: usize,
    plan: &[u8],
    scratch: &mut [u16],
    visits: &mut [u16],
) -> CrossingAnswer
    ensures { result ≡ crossing_answer_of (crossing_of (take player.now.plan plan.now) net.width net.height player.now.tables player.now.crossing player.now.list net.source net.sink) (take player.now.scratch scratch.old) (take room visits.old) }
{
    let n = player.plan.min(plan.len());
    let s = player.scratch.min(scratch.len());
    let v = room.min(visits.len());
    let asking = Asking {
        plan: &plan[..n],
        width: net.width,
        height: net.height,
        tables: player.tables,
        buffers: read_list(player.list),
        source: net.source,
        sink: net.sink,
    };
    let (scratch, visits) = (&mut scratch[..s], &mut visits[..v]);
    route_crossing_asked(&asking, player.crossing, scratch, visits)
}

// crossing W H A B V, with fresh words
pub fn crossing<W: Write>(
    out: &mut W,
    script: &mut Script,
    player: &Player,
    plan: &[u8],
    scratch: &mut [u16],
    visits: &mut [u16],
) -> Result<(), PlayError> {
    let net = Net::read(script)?;
    let room = script.number_to(VISIT_WORDS as u32)? as usize;
    scratch.fill(UNUSED);
    visits.fill(UNUSED);
    let answer = crossing_of(net, player, room, plan, scratch, visits);
    let depth = player.session.depth;
    write_answer(out, b"crossing", answer, depth, visits, scratch)?;
    Ok(())
}
