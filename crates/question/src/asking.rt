// What every call about a route is asked.
ghost use Rattle.std.specs.Prelude.{◌≡◌};
ghost use Rattle.question.specs.Asked.{asked, asked_between};
ghost use Rattle.question.specs.Checked.{checked_question};
ghost use Rattle.question.specs.Crossing.{crossing_checked};

use crate::{check_ends, check_sides};
use answers::{BuffersRead, Crossing, Refusal, Tables, check_crossing, check_tables};
use problem::{Net, Problem};

// The plan's bytes and sides, the raw tables, the buffers that were read, the ends. In a clause `asked` makes it the question.
#[derive(Clone, Copy)]
pub struct Asking<'a> {
    pub plan: &'a [u8],
    pub width: u16,
    pub height: u16,
    pub tables: Tables,
    pub buffers: BuffersRead,
    pub source: u16,
    pub sink: u16,
}

impl<'a> Asking<'a> {
    // The checks with one clock.
    pub fn check(&self) -> Result<Problem, Refusal>
        ensures { result ≡ checked_question (asked self.now) }
    {
        check_sides(self.plan, self.width, self.height)?;
        let elements = check_tables(self.tables, self.buffers)?;
        check_ends(self.width, self.height, elements, self.source, self.sink)
    }

    // The same between two clocks.
    pub fn check_between(&self, crossing: Crossing) -> Result<Net, Refusal>
        ensures { result ≡ crossing_checked (asked_between self.now crossing) }
    {
        let Asking {
            plan,
            width,
            height,
            source,
            sink,
            ..
        } = *self;
        check_sides(plan, width, height)?;
        let made = check_crossing(self.tables, crossing, self.buffers)?;
        let problem = check_ends(width, height, made.elements, source, sink)?;
        Ok(Net {
            problem,
            clocks: made.clocks,
        })
    }
}
