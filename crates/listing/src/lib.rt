// The text that lists an envelope: a line for each record, and a last line.
#![tactic(auto)]

ghost use Rattle.std.specs.Prelude.{◌≡◌, ◌++◌, IfOk, string_bytes, OnOk};
ghost use Rattle.std.specs.Option.{option_map};
ghost use Rattle.fault.specs.Numbers.{told};
ghost use Rattle.envelope.specs.Entries.{entry};
ghost use Rattle.envelope.specs.Held.{held};
ghost use Rattle.listing.specs.Listing.{last_line, listing, record_line, shown};

use envelope::reading::{Reading, read};
use envelope::record::Record;
use fault::Fault;
use std::alloc::{AllocError, Global};

// The longest envelope that is listed, in bytes.
pub const LONGEST: usize = 8192;

pub const TOO_LONG: &str = "file too long\n";

fn add_record(text: &mut String, record: &Record) -> Result<(), AllocError>
    ensures { OnOk result (string_bytes text.new ≡ string_bytes text.old ++ record_line (entry «record».now)) }
{
    let kind = u8::from(record.kind());
    let part = record.part();
    let place = part.place;
    let length = part.bytes.len();
    writeln!(text, "{place} {kind} {length}")
}

fn add_last(text: &mut String, count: usize, fault: Option<Fault>) -> Result<(), AllocError>
    ensures { OnOk result (string_bytes text.new ≡ string_bytes text.old ++ last_line count (option_map told fault)) }
{
    match fault {
        None => writeln!(text, "records {count}"),
        Some(fault) => writeln!(text, "{fault}"),
    }
}

// The lines of a reading.
pub fn list(heap: Global, reading: &Reading) -> Result<String, AllocError>
    ensures { IfOk result (λ s. string_bytes s ≡ listing (held reading.now)) }
{
    let mut text = String::from_str(heap, "place kind length\n")?;
    for record in &reading.records {
        add_record(&mut text, record)?;
    }
    add_last(&mut text, reading.records.len(), reading.fault)?;
    Ok(text)
}

// What the program `show` writes for its input.
pub fn show(heap: Global, input: &[u8]) -> Result<String, AllocError>
    ensures { IfOk result (λ s. string_bytes s ≡ shown input.now) }
{
    if input.len() > LONGEST {
        return String::from_str(heap, TOO_LONG);
    }
    let reading = read(heap, input)?;
    list(heap, &reading)
}
