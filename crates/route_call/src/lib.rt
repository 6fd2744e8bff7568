// A route call as a program makes it: with a part of its words.
#![tactic(auto)]

ghost use Rattle.std.specs.Prelude.{◌≡◌, take};
ghost use Rattle.router.specs.Route.{question_of, answer_of};

use answers::{Answer, BufferList, Tables, read_list};
use question::Asking;
use router::route_asked;

// A route call without its plan. `scratch` and `visits` are how many words are lent.
#[derive(Clone, Copy)]
pub struct Call {
    pub width: u16,
    pub height: u16,
    pub tables: Tables,
    pub list: BufferList,
    pub source: u16,
    pub sink: u16,
    pub scratch: usize,
    pub visits: usize,
}

// Calls with the first of these words.
pub fn ask(plan: &[u8], c: Call, scratch: &mut [u16], visits: &mut [u16]) -> Answer
    ensures { result ≡ answer_of (question_of plan.now c.width c.height c.tables c.list c.source c.sink) (take c.scratch scratch.old) (take c.visits visits.old) }
{
    let s = c.scratch.min(scratch.len());
    let v = c.visits.min(visits.len());
    let asking = Asking {
        plan,
        width: c.width,
        height: c.height,
        tables: c.tables,
        buffers: read_list(c.list),
        source: c.source,
        sink: c.sink,
    };
    route_asked(&asking, &mut scratch[..s], &mut visits[..v])
}
