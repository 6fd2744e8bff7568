// Words and numbers put into a lent text from a place on. Each answers the place after it.
// The place stands beside the text and not in a struct with it: `Put` says of the lent text where each part begins and ends.
ghost use Rattle.std.specs.Prelude.{◌+◌, ◌≤◌, ◌<◌, [], ◌∷◌, length};
ghost use Rattle.text.specs.Decimal.{decimal, signed};
ghost use Rattle.text.specs.Put.{Put};

use timing::slack_magnitude;

pub fn put_byte(byte: u8, out: &mut [u8], at: usize) -> usize
    requires { at < length out.old }
    ensures { Put (byte ∷ []) at result out.old out.new }
{
    out[at] = byte;
    at + 1
}

pub fn put_word(word: &[u8], out: &mut [u8], at: usize) -> usize
    requires { at + length word.now ≤ length out.old }
    ensures { Put word.now at result out.old out.new }
{
    let end = at + word.len();
    out[at..end].copy_from_slice(word);
    end
}

// The number in decimal.
pub fn put_decimal(n: u32, out: &mut [u8], at: usize) -> usize
    requires { at + length (decimal n) ≤ length out.old }
    ensures { Put (decimal n) at result out.old out.new }
{
    if n < 10 {
        return put_byte(b'0' + n as u8, out, at);
    }
    let last = put_decimal(n / 10, out, at);
    put_byte(b'0' + (n % 10) as u8, out, last)
}

// The same of a signed number, with a minus sign below zero.
pub fn put_signed(z: i32, out: &mut [u8], at: usize) -> usize
    requires { at + length (signed z) ≤ length out.old }
    ensures { Put (signed z) at result out.old out.new }
{
    let n = slack_magnitude(z);
    if z < 0 {
        let digits = put_byte(b'-', out, at);
        return put_decimal(n, out, digits);
    }
    put_decimal(n, out, at)
}
