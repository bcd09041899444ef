// Judges whether an envelope holds what a signature check needs.
ghost use Rattle.std.specs.Prelude.{◌≡◌};
ghost use Rattle.envelope.specs.Judging.{Exact, judgement, verdict};
ghost use Rattle.envelope.specs.Readers.{remaining};
ghost use Rattle.envelope.specs.Tallies.{Tallied};

use crate::couple::Couple;
use crate::reader::{Reader, fault_at};
use crate::tally::Tally;
use fault::{Fault, Refusal};

// The tally of all that a reader has still to give.
fn tally_of<'a>(mut reader: Reader<'a>) -> Result<Tally<'a>, Fault>
    ensures { Tallied result (remaining reader.entry) }
{
    let mut tally = Tally::new();
    while let Some(record) = reader.next()? {
        tally.add(record);
    }
    Ok(tally)
}

// The one key and the one signature of an envelope, both of one set, beside at most one day.
// A fault of the reading comes first, wherever it stands.
pub fn judge<'a>(envelope: &'a [u8]) -> Result<Couple<'a>, Fault>
    ensures judges { verdict result ≡ judgement envelope.now }
    ensures exact { Exact envelope.now (judgement envelope.now) }
{
    let tally = tally_of(Reader::new(envelope))?;
    tally
        .couple()
        .ok_or(fault_at(Refusal::NotOneCouple, envelope.len()))
}
