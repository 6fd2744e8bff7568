// One number of a job: groups of seven bits, lowest first, the top bit set when another follows.
ghost use Rattle.std.specs.Prelude.{◌≡◌, ◌<◌};
ghost use Rattle.numbers.specs.Numbers.{number, second_group, third_group, read_of};

// The number that the job begins with, and the bytes after it; None is refusal 15.
// Byte by byte: one match over `[low, high, ..]` with ranges splits the proof into some twenty branches whose facts have no names of the source.
#[tactic(auto, unfolding(crate::specs::Numbers::number, crate::specs::Numbers::read_of))]
pub fn read_number(job: &[u8]) -> Option<(u16, &[u8])>
    ensures { read_of result ≡ number job.now }
{
    let (&first, rest) = job.split_first()?;
    if first < 128 {
        return Some((first as u16, rest));
    }
    second_byte(rest, first as u16 - 128)
}

// The rest of a number whose first group is `low`.
#[tactic(auto, unfolding(crate::specs::Numbers::second_group, crate::specs::Numbers::closed, crate::specs::Numbers::read_of))]
fn second_byte(job: &[u8], low: u16) -> Option<(u16, &[u8])>
    requires { low < 128 }
    ensures { read_of result ≡ second_group low job.now }
{
    let (&second, rest) = job.split_first()?;
    match second {
        0 => None,
        1..=127 => Some((low + 128 * second as u16, rest)),
        _ => third_byte(rest, low + 128 * (second as u16 - 128)),
    }
}

// The rest of a number whose first two groups are `low`.
#[tactic(auto, unfolding(crate::specs::Numbers::third_group, crate::specs::Numbers::closed, crate::specs::Numbers::read_of))]
fn third_byte(job: &[u8], low: u16) -> Option<(u16, &[u8])>
    requires { low < 16384 }
    ensures { read_of result ≡ third_group low job.now }
{
    let (&third, rest) = job.split_first()?;
    if third == 0 || third >= 128 {
        return None;
    }
    let value = u16::try_from(low as u32 + 16384 * third as u32).ok()?;
    Some((value, rest))
}
