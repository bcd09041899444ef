// Answers the cases on standard input: writes each line again, with the bytes that are read behind it.
#![tactic(auto)]

mod answer;
mod case;
mod fault;
mod hex;
mod message;

use answer::answer;
use case::case_of;
use fault::Fault;
use hex::Hex;
use std::alloc::Global;
use std::io;
use std::io::{BufRead, BufReader};
use std::process::ExitCode;

fn answered_line(heap: Global, line: &str) -> Result<String, Fault> {
    let case = case_of(heap, line)?;
    let bytes = answer(heap, &case)?;
    Ok(format!(in heap; "{line} {}", Hex(bytes.as_slice()))?)
}

// Says on standard error what is wrong with the line: the program then ends with status 1.
fn fail(rt: &HostRuntime, line: &str, fault: Fault) -> io::Result<ExitCode> {
    eprintln!(rt; "hash_vectors: {fault}: {line}")?;
    Ok(ExitCode::FAILURE)
}

fn main(rt: HostRuntime) -> io::Result<ExitCode> {
    let heap = rt.alloc();
    for line in BufReader::new(heap, rt.stdin())?.lines(heap) {
        let line = line?;
        // a fault is said with its line, so it does not go up by `?`
        match answered_line(heap, line.as_str()) {
            Ok(text) => rt.println(text)?,
            Err(fault) => return fail(&rt, line.as_str(), fault),
        }
    }
    Ok(ExitCode::SUCCESS)
}

#[cfg(test)]
mod tests {
    use super::answered_line;
    use std::test::Fail;

    #[test]
    fn a_fault_says_what_is_wrong(rt: HostRuntime) -> Result<(), Fail> {
        let heap = rt.alloc();
        for (line, text) in [
            ("sha256 hex:61 all", "not four words"),
            ("sha1 hex:61 all digest", "unknown algorithm"),
            ("sha256 text:61 all digest", "unknown form of message"),
            ("sha256 hex:6A all digest", "not bytes in hex"),
            ("sha256 count:x all digest", "not a number"),
            ("sha256 hex:61 0,0 digest", "all pieces to feed are empty"),
            ("sha256 hex:61 all 32", "the reads do not fit the algorithm"),
            (
                "sha256 repeat:61*18446744073709551615 all digest",
                "no memory",
            ),
        ] {
            let said = match answered_line(heap, line) {
                Ok(answered) => answered,
                Err(fault) => format!(in heap; "{fault}")?,
            };
            assert_eq!(rt; said.as_str(), text);
        }
        Ok(())
    }
}
