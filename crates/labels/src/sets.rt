// A set of labels is copied.
ghost use Rattle.std.specs.Prelude.{◌+◌, ◌*◌, get_or};
ghost use Rattle.layout.specs.Layout.{label_words};
ghost use Rattle.rows.specs.Words.{Filled};
ghost use Rattle.labels.specs.Labels.{CopyAsks};

use layout::LABEL_WORDS;

pub fn copy_set(scratch: &mut [u16], n: usize, from: usize, to: usize)
    requires { CopyAsks n from to scratch.old }
    ensures { Filled (λ k. get_or scratch.old (from + k) 0) to (n * label_words) scratch.old scratch.new }
{
    scratch.copy_within(from..from + n * LABEL_WORDS, to);
}
