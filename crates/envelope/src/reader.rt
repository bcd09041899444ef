// Reads an envelope record by record, from its first byte to its last.
ghost use Rattle.std.specs.Prelude.{◌≡◌, ◌+◌, ◌^◌, ◌<◌, length, drop};
ghost use Rattle.fault.specs.Numbers.{told};
ghost use Rattle.envelope.specs.Law.{Faithful};
ghost use Rattle.envelope.specs.Reading.{answered, fault_at, next_at, reading, taken};

use crate::kind::Kind;
use crate::record::{Part, Record};
use fault::{Fault, Origin, Refusal};

// What is left of an envelope, and its place. It has no `Model`, with which it could not be `Copy`.
#[derive(Clone, Copy)]
pub struct Reader<'a> {
    place: usize,
    rest: &'a [u8],
    ghost fits: { place + length rest.now < 2 ^ 64 },
}

// A fault of the envelope itself.
pub(crate) fn fault_at(refusal: Refusal, place: usize) -> Fault
    ensures { told result ≡ fault_at refusal place }
{
    Fault {
        refusal,
        origin: Origin::Envelope,
        place,
    }
}

impl<'a> Reader<'a> {
    // A reader at the first byte. What it will give, record by record, is faithful to the envelope.
    pub fn new(envelope: &'a [u8]) -> Reader<'a>
        ensures place { result.place ≡ 0 }
        ensures rest { result.rest.now ≡ envelope.now }
        ensures faithful { Faithful envelope.now (reading envelope.now) }
    {
        Reader {
            place: 0,
            rest: envelope,
        }
    }

    // The next record, or `None` at the end. A fault leaves the reader where it is.
    pub fn next(&mut self) -> Result<Option<Record<'a>>, Fault>
        ensures answers { answered result ≡ next_at self.old.place self.old.rest.now }
        ensures place { self.new.place ≡ self.old.place + taken (answered result) }
        ensures rest { self.new.rest.now ≡ drop (taken (answered result)) self.old.rest.now }
    {
        let place = self.place;
        let [first, rest @ ..] = self.rest else {
            return Ok(None);
        };
        let kind = Kind::try_from(*first).map_err(|refusal| fault_at(refusal, place))?;
        let length = kind.body_length();
        let (bytes, rest) = rest
            .split_at_checked(length)
            .ok_or(fault_at(Refusal::BodyCutShort, place))?;
        self.rest = rest;
        self.place = place + 1 + length;
        Ok(Some(Record::new(kind, Part { place, bytes })))
    }
}
