// The text of an answer. Each line ends with a newline.
ghost use Rattle.std.specs.Prelude.{◌+◌, ◌*◌, ◌≤◌, length};
ghost use Rattle.text.specs.Put.{Put};
ghost use Rattle.text.specs.Answers.{refusal_text, figures_line, visit_line, visit_lines, answer_text, VisitsWithin, text_room};

use crate::put::{put_byte, put_decimal, put_signed, put_word};
use answers::{Answer, Figures, Numbered};

// The number of "no route".
const NO_ROUTE: u16 = 7;

// `none` for 7, else `refused` and the number. By number, since `refusal_text` is of both a job's refusals and the call's.
pub fn put_refusal(number: u16, out: &mut [u8]) -> usize
    requires { text_room 0 ≤ length out.old }
    ensures { Put (refusal_text number) 0 result out.old out.new }
{
    if number == NO_ROUTE {
        return put_word(b"none\n", out, 0);
    }
    let a = put_word(b"refused ", out, 0);
    let b = put_decimal(number as u32, out, a);
    put_byte(b'\n', out, b)
}

// `route`, registers, steps, latency and spare half-ticks.
fn put_figures(f: Figures, out: &mut [u8]) -> usize
    requires { text_room 0 ≤ length out.old }
    ensures { Put (figures_line f) 0 result out.old out.new × (result ≤ text_room 0) }
{
    let a = put_word(b"route ", out, 0);
    let b = put_decimal(f.registers as u32, out, a);
    let c = put_byte(b' ', out, b);
    let d = put_decimal(f.steps, out, c);
    let e = put_byte(b' ', out, d);
    let g = put_decimal(f.latency, out, e);
    let h = put_byte(b' ', out, g);
    let i = put_signed(f.slack, out, h);
    put_byte(b'\n', out, i)
}

// A visit's cell and code.
fn put_visit(cell: u16, code: u16, out: &mut [u8], at: usize) -> usize
    requires { at + 12 ≤ length out.old }
    ensures { Put (visit_line cell code) at result out.old out.new }
{
    let a = put_decimal(cell as u32, out, at);
    let b = put_byte(b' ', out, a);
    let c = put_decimal(code as u32, out, b);
    put_byte(b'\n', out, c)
}

// The lines of the first n visits. By n and not a part of the visits: an answer tells of fewer visits than the words lent hold, and `visit_lines` counts them.
fn put_visits(visits: &[u16], n: usize, out: &mut [u8], start: usize) -> usize
    requires { (2 * n ≤ length visits.now) × (start + 12 * n ≤ length out.old) }
    ensures { Put (visit_lines visits.now n) start result out.old out.new }
{
    let mut at = start;
    for i in 0..n {
        at = put_visit(visits[2 * i], visits[2 * i + 1], out, at);
    }
    at
}

// The text of a route call's answer.
pub fn put_answer(answer: Answer, visits: &[u16], out: &mut [u8]) -> usize
    requires { VisitsWithin answer (length visits.now) × (text_room (length visits.now) ≤ length out.old) }
    ensures { Put (answer_text answer visits.now) 0 result out.old out.new }
{
    match answer {
        Answer::Found(f) => {
            let at = put_figures(f, out);
            put_visits(visits, f.steps as usize + 1, out, at)
        }
        Answer::NoRoom(_) => put_refusal(8, out),
        Answer::Refused(r) => put_refusal(r.number(), out),
    }
}
