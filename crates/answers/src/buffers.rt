// A lent list of buffers and its check.
ghost use Rattle.std.specs.Prelude.{◌≡◌, cond, Some, None};
ghost use Rattle.answers.specs.Tables.{buffer_ok, buffer_from, checked_list};

use crate::records::{BufferList, BufferRecord};
use crate::refusal::Fault;
use std::marker::Model;
use timing::{Buffer, Elements};

// A list of buffers that was read, and its check: the first fault, or the six places, each buffer made by its constructor, then buffers of zeros.
// In a clause it is the list, and `places` gives the check.
#[derive(Clone, Copy)]
pub struct BuffersRead {
    list: BufferList,
    places: Result<[Buffer; Elements::BUFFERS_MAX], Fault>,
}

impl Model for BuffersRead {
    ghost use Rattle.std.specs.Prelude.{◌≡◌};
    ghost use Rattle.std.proofs.Common.{sym};
    ghost use Rattle.answers.specs.declared.records.BufferList.{BufferList};
    ghost use Rattle.answers.specs.Tables.{checked_list};

    ghost Value = { BufferList };

    ghost view = { λ r. r.list };

    ghost invariant = { λ r. r.places ≡ checked_list r.list };

    ghost inverse = { λ list. record { list = list; places = checked_list list } };

    ghost inverse_ok = { λ r is i. record { list = r.list; places = sym is i } };
}

impl BuffersRead {
    pub fn list(self) -> BufferList
        ensures { result ≡ self }
    {
        self.list
    }

    // The check of the list.
    pub fn places(self) -> Result<[Buffer; Elements::BUFFERS_MAX], Fault>
        ensures { result ≡ checked_list self }
    {
        self.places
    }
}

// The list, with its check.
pub fn read_list(list: BufferList) -> BuffersRead
    ensures { result ≡ list }
{
    BuffersRead {
        list,
        places: check_list(list),
    }
}

// The count, then each of the buffers.
fn check_list(list: BufferList) -> Result<[Buffer; Elements::BUFFERS_MAX], Fault>
    ensures { result ≡ checked_list list }
{
    if Elements::BUFFERS_MAX < list.n {
        return Err(Fault::Count);
    }
    let mut places = [Buffer::zero(); Elements::BUFFERS_MAX];
    for i in 0..list.n {
        places[i] = list.items[i]
            .checked()
            .ok_or(Fault::Buffer((i + 1) as u16))?;
    }
    Ok(places)
}

impl BufferRecord {
    fn checked(self) -> Option<Buffer>
        ensures { result ≡ cond (buffer_ok self) (Some (buffer_from self)) None }
    {
        Buffer::checked(self.resistance, self.delay, self.load)
    }
}
