// The better of two route lists: the caller's own words, or an empty part where the comparison is refused.
ghost use Rattle.question.specs.Asked.{asked};
ghost use Rattle.comparison.specs.Better.{comparison_of, Handed};

use crate::compare::compare_asked;
use answers::Which;
use question::Asking;

pub fn better_asked<'a>(asking: &Asking, a: &'a [u16], b: &'a [u16]) -> &'a [u16]
    ensures { Handed (comparison_of (asked asking.now) a.now b.now) a.entry b.entry result }
{
    match compare_asked(asking, a, b) {
        Ok(Which::First) => a,
        Ok(Which::Second) => b,
        Err(_) => &a[..0],
    }
}
