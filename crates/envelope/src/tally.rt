// Counts keys, signatures and days, and keeps each that is the only one so far.
ghost use Rattle.std.specs.Prelude.{◌≡◌, List, [], ◌∷◌, ◌++◌};
ghost use Rattle.std.specs.Option.{option_map};
ghost use Rattle.envelope.specs.Entries.{Entry, entry};
ghost use Rattle.envelope.specs.Judging.{couple_items, couple_of};
ghost use Rattle.envelope.specs.Tallies.{Tallies, more};

use crate::couple::Couple;
use crate::kind::Set;
use crate::record::{Part, Record};

// There are several, where one was wanted.
#[derive(Clone, Copy)]
pub struct Several;

// The only one so far, if there is one.
type Only<T> = Result<Option<T>, Several>;

// What that is with one more.
fn and<T: Copy>(only: Only<T>, value: T) -> Only<T>
    ensures { result ≡ more only value }
{
    match only? {
        None => Ok(Some(value)),
        Some(_) => Err(Several),
    }
}

// What was read so far, by what it is.
#[derive(Clone, Copy)]
pub struct Tally<'a> {
    keys: Only<(Set, Part<'a>)>,
    signatures: Only<(Set, Part<'a>)>,
    days: Only<Part<'a>>,
}

impl<'a> Tally<'a> {
    pub fn new() -> Tally<'a>
        ensures { Tallies result [] }
    {
        Tally {
            keys: Ok(None),
            signatures: Ok(None),
            days: Ok(None),
        }
    }

    pub fn add(&mut self, record: Record<'a>)
        ensures { (es : List Entry) → Tallies self.old es → Tallies self.new (es ++ entry «record».entry ∷ []) }
    {
        match record {
            Record::Key(set, part) => self.keys = and(self.keys, (set, part)),
            Record::Signature(set, part) => self.signatures = and(self.signatures, (set, part)),
            Record::Day(part) => self.days = and(self.days, part),
        }
    }

    // The key and the signature, where there is one of each, of one set, and no second day.
    pub fn couple(&self) -> Option<Couple<'a>>
        ensures { (es : List Entry) → Tallies self.now es → option_map couple_items result ≡ couple_of es }
    {
        match (self.keys, self.signatures, self.days) {
            (Ok(Some((set, key))), Ok(Some((other, signature))), Ok(_)) if set == other => Some(
                Couple {
                    set,
                    key,
                    signature,
                },
            ),
            _ => None,
        }
    }
}
