// The ranking of two route lists, on their words.
ghost use Rattle.std.specs.Prelude.{◌≡◌, false};
ghost use Rattle.rules.specs.Ranking.{registers, ranks_before};
ghost use Rattle.verdict.specs.Verdict.{route_in, bad_list};

// Registers without both ends: the visits with code 7, less two.
fn registers_of(words: &[u16]) -> usize
    ensures { result ≡ registers (route_in words.now) }
{
    let (visits, _) = words.as_chunks::<2>();
    visits
        .iter()
        .filter(|visit| visit[1] == 7)
        .count()
        .saturating_sub(2)
}

// Fewer registers, then fewer steps, then first in lexicographic order.
pub fn ranks_before(b: &[u16], a: &[u16]) -> bool
    requires { (bad_list b.now ≡ false) × (bad_list a.now ≡ false) }
    ensures { result ≡ ranks_before registers (route_in b.now) (route_in a.now) }
{
    (registers_of(b), b.len(), b) < (registers_of(a), a.len(), a)
}
