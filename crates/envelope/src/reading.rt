// All records of an envelope at once.
ghost use Rattle.std.specs.Prelude.{◌≡◌, IfOk};
ghost use Rattle.envelope.specs.Held.{held};
ghost use Rattle.envelope.specs.Law.{Faithful};
ghost use Rattle.envelope.specs.Readers.{remaining};
ghost use Rattle.envelope.specs.Reading.{reading};

use crate::reader::Reader;
use crate::record::Record;
use fault::Fault;
use std::alloc::{AllocError, Global};

// The records of an envelope in their order, and the fault that ended the reading, if one did.
#[derive(Drop)]
pub struct Reading<'a> {
    pub records: Vec<Record<'a>>,
    pub fault: Option<Fault>,
}

// All that a reader has still to give.
fn collect<'a>(heap: Global, mut reader: Reader<'a>) -> Result<Reading<'a>, AllocError>
    ensures { IfOk result (λ x. held x ≡ remaining reader.entry) }
{
    let mut records = Vec::new(heap);
    let fault = loop {
        match reader.next() {
            Ok(Some(record)) => records.push(record)?,
            Ok(None) => break None,
            Err(fault) => break Some(fault),
        }
    };
    Ok(Reading { records, fault })
}

// Reads an envelope from end to end.
pub fn read<'a>(heap: Global, envelope: &'a [u8]) -> Result<Reading<'a>, AllocError>
    ensures reads { IfOk result (λ x. held x ≡ reading envelope.now) }
    ensures faithful { Faithful envelope.now (reading envelope.now) }
{
    collect(heap, Reader::new(envelope))
}
