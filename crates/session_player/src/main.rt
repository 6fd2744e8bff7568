// Plays a script of session calls from standard input and prints what each gives.
//
// A script is text: words and decimal numbers, apart by spaces or line ends; a `#` starts a comment, to the end of its line. It has fewer than 65,536 bytes. Its commands:
//
//     plan N M1 .. MN        the plan has N bytes, M1 to MN; at most 1,100, each at most 255
//     journal N              the journal has N bytes, at most 1,100; it starts with 1,024, all 7
//     open W H               opens a session on the plan, W wide and H high
//     move CELL MARKS        a move
//     undo                   an undo
//     depth D                puts D into the record
//     byte AT VALUE          puts a byte into the journal
//     tables R K C S R C R C T SK L     register, horizontal wire, vertical wire, period, skew, load limit
//     buffers N R K C ..     a list of N buffers, at most 20
//     clocks TS R K C S      the source's period and the FIFO, for a net between two clocks
//     scratch N              N scratch words are lent to each route, crossing or reason call, at most 524,288, which is what it starts with
//     route W H A B V        a route from A to B on the plan, W wide and H high; V visit words are lent, at most 2,048
//     crossing W H A B V     the same between two clocks; the tables' period is the sink's
//     reason W H A B         why there is no route from A to B
//     judge W H A B N W1 .. WN       the verdict on a route list of N words, at most 32,768, for a route from A to B
//     better W H A B N W1 .. WN M U1 .. UM    the better of two such lists
//     show                   prints all that is lent: plan, journal, scratch and visits
//
// Numbers are at most 65,535 where no other bound is said. Sides, depth, cells and tables may be out of the calls' own ranges: the calls refuse them. Before the first `open` the record is zero; before `tables`, `clocks` and `buffers` the tables and the clocks are zero and there are no buffers. All 524,288 scratch words are 65,535 before each route, crossing and reason call, all 2,048 visit words before each route and each crossing call.
//
// Printed, a line for each call: `open N depth D`, `move N depth D`, `undo N depth D`, with document 01's number and the record's depth; `route N depth D figures R S L P visits .. zeroed Z`, with the smallest spare figure P, the visit words filled and the scratch words zeroed; after `route 4` the word `fault`, its place in the order of refusal 4 and a buffer's place. `crossing N depth D figures SR TR S L P visits .. zeroed Z` likewise, with the registers SR on the source's side and TR on the sink's, and `fault` by the order of two clocks. `reason N depth D` with `walled` (no chain of uncut wires), `load`, `period T` with the smallest period, or `short` (30,000 ticks are too short), then `zeroed Z`. `judge N depth D` with `accepted P`, or `visit I` and the fault there (`cell`, `wire`, `site`, `load`, `period P`), with the spare figure P of the span that closes there; `better N depth D` with `first` or `second`, and `words ..`, the words handed back; all three with `fault ..` after 4. `show` prints four lines: `plan` and `journal` with each byte lent; `scratch` and `visits` with all the player's words, lent or not, as the last calls left them, a run of N equal words W as `W * N`. Where the script is wrong, the line `bad script: line L: ..` says how and nothing more is played.
//
// A failed read or write ends the program with a line on standard error. A script whose read fails is not played.
//
// The calls are the functions below `planner`'s; `tests/calls` runs `planner`'s own.
#![tactic(auto)]

mod calls;
mod lines;
mod play;

use lines::write_too_long;
use list_calls::LIST_WORDS;
use play::play;
use player::{SCRATCH_WORDS, UNUSED, VISIT_WORDS};
use std::io::{Result, Write};
use streams::{fail, read_input};

// The longest plan and journal of a script, in bytes.
const PLAN: usize = 1100;

const JOURNAL: usize = 1100;

// What the bytes hold before the first call.
const FILL: u8 = 7;

// Plays on fresh bytes and words.
fn played<W: Write>(out: &mut W, text: &[u8]) -> Result<()> {
    let mut plan = [FILL; PLAN];
    let mut journal = [FILL; JOURNAL];
    let mut scratch = [UNUSED; SCRATCH_WORDS];
    let mut visits = [UNUSED; VISIT_WORDS];
    let mut first = [UNUSED; LIST_WORDS];
    let mut second = [UNUSED; LIST_WORDS];
    play(
        out,
        text,
        &mut plan,
        &mut journal,
        &mut scratch,
        &mut visits,
        &mut first,
        &mut second,
    )
}

fn main(rt: HostRuntime) {
    let mut text = io::large_buffer();
    let input = read_input(&mut rt.stdin(), &mut text);
    if let Some(error) = input.failed {
        fail(&mut rt.stderr(), b"session_player: standard input", error);
        return;
    }
    let n = input.bytes;
    let written = if text.len() <= n {
        write_too_long(&mut rt.stdout())
    } else {
        played(&mut rt.stdout(), &text[..n])
    };
    if let Err(error) = written {
        fail(&mut rt.stderr(), b"session_player: standard output", error);
    }
}
