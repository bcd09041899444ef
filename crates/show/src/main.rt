// Lists the envelope on standard input: place, kind and body length of each record.
#![tactic(auto)]

ghost use Rattle.std.specs.Prelude.{◌≡◌};
ghost use Rattle.std.specs.Process.{exit_status};

use listing::{LONGEST, show};
use std::alloc::Global;
use std::io;
use std::io::Read;
use std::process::ExitCode;
use thiserror::Error;

#[derive(Debug, Drop, Error)]
enum Failure {
    #[error("cannot read standard input: {0}")]
    Input(io::Error),
    #[error("cannot write the listing: {0}")]
    Listing(io::Error),
}

// One byte more than is listed tells that the input is too long, so no more is read.
fn read_input<R: Read + Drop>(heap: Global, source: R) -> io::Result<Vec<u8>> {
    let mut input = Vec::new(heap);
    source.take(LONGEST as u64 + 1).read_to_end(&mut input)?;
    Ok(input)
}

fn list_input(rt: &HostRuntime, input: &[u8]) -> io::Result<()> {
    let text = show(rt.alloc(), input)?;
    rt.write_all(text.as_bytes())
}

fn run(rt: &HostRuntime) -> Result<(), Failure> {
    let input = read_input(rt.alloc(), rt.stdin()).map_err(Failure::Input)?;
    list_input(rt, input.as_slice()).map_err(Failure::Listing)
}

// Says on standard error what failed; the program then ends with status 1.
fn fail(rt: &HostRuntime, failure: Failure) -> ExitCode
    ensures { exit_status result ≡ 1 }
{
    let _ = eprintln!(rt; "show: {failure}");
    ExitCode::FAILURE
}

fn main(rt: HostRuntime) -> ExitCode {
    match run(&rt) {
        Ok(()) => ExitCode::SUCCESS,
        Err(failure) => fail(&rt, failure),
    }
}

#[cfg(test)]
mod tests {
    use super::{Failure, read_input};
    use listing::show;
    use std::io;
    use std::io::Read;
    use std::test::Fail;

    // Reads a few bytes at a time.
    #[derive(Drop)]
    struct Few<R>(R);

    impl<R: Read> Read for Few<R> {
        fn read(&mut self, buf: &mut [u8]) -> io::Result<usize> {
            let count = buf.len().min(1000);
            self.0.read(&mut buf[..count])
        }
    }

    // Fails at each read.
    #[derive(Drop)]
    struct Broken;

    impl Read for Broken {
        fn read(&mut self, _buf: &mut [u8]) -> io::Result<usize> {
            Err(io::Error::other("read failed"))
        }
    }

    #[test]
    fn one_byte_too_many_is_read_and_no_more(rt: HostRuntime) -> Result<(), Fail> {
        let heap = rt.alloc();
        for (given, kept) in [
            (0, 0),
            (1, 1),
            (8191, 8191),
            (8192, 8192),
            (8193, 8193),
            (8194, 8193),
            (1000000, 8193),
        ] {
            let input = read_input(heap, Few(io::repeat(0).take(given)))?;
            assert_eq!(rt; input.len(), kept);
            let is_too_long = show(heap, input.as_slice())?.as_str() == "file too long\n";
            assert_eq!(rt; is_too_long, given > 8192);
        }
        Ok(())
    }

    #[test]
    fn a_failed_read_is_an_error(rt: HostRuntime) {
        let heap = rt.alloc();
        // what lies behind the limit is not read
        for (given, is_read) in [(0, false), (5000, false), (8193, true)] {
            let source = Few(io::repeat(0).take(given).chain(Broken));
            assert_eq!(rt; read_input(heap, source).is_ok(), is_read);
        }
    }

    #[test]
    fn a_failure_says_what_failed(rt: HostRuntime) -> Result<(), Fail> {
        let heap = rt.alloc();
        for (failure, text) in [
            (
                Failure::Input(io::Error::other("it broke")),
                "cannot read standard input: it broke",
            ),
            (
                Failure::Listing(io::Error::other("it broke")),
                "cannot write the listing: it broke",
            ),
        ] {
            assert_eq!(rt; format!(in heap; "{failure}")?.as_str(), text);
        }
        Ok(())
    }
}
