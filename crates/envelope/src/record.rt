// Records: parts of an envelope with their place.
ghost use Rattle.std.specs.Prelude.{◌≡◌};
ghost use Rattle.envelope.specs.Entries.{entry};

use crate::kind::{Kind, Set};

// The body of a record, borrowed from the envelope, and the place of its kind byte.
#[derive(Clone, Copy)]
pub struct Part<'a> {
    pub place: usize,
    pub bytes: &'a [u8],
}

// A record, by what its body is. It repeats the cases of `Kind`, so that each holds just what it has.
#[derive(Clone, Copy)]
pub enum Record<'a> {
    Key(Set, Part<'a>),
    Signature(Set, Part<'a>),
    Day(Part<'a>),
}

impl<'a> Record<'a> {
    pub fn new(kind: Kind, part: Part<'a>) -> Record<'a>
        ensures { entry result ≡ record { place = part.entry.place; kind = kind; body = part.entry.bytes.now } }
    {
        match kind {
            Kind::Key(set) => Record::Key(set, part),
            Kind::Signature(set) => Record::Signature(set, part),
            Kind::Day => Record::Day(part),
        }
    }

    pub fn kind(&self) -> Kind
        ensures { result ≡ (entry self.now).kind }
    {
        match self {
            Record::Key(set, _) => Kind::Key(*set),
            Record::Signature(set, _) => Kind::Signature(*set),
            Record::Day(_) => Kind::Day,
        }
    }

    pub fn part(&self) -> Part<'a>
        ensures place { result.place ≡ (entry self.now).place }
        ensures body { result.bytes.now ≡ (entry self.now).body }
    {
        match self {
            Record::Key(_, part) => *part,
            Record::Signature(_, part) => *part,
            Record::Day(part) => *part,
        }
    }
}
