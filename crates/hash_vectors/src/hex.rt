// Bytes in hex.
use crate::fault::Fault;
use std::alloc::Global;
use std::fmt;

// Only lower case is taken: `to_digit` would take capitals too.
fn digit_value(digit: u8) -> Result<u8, Fault> {
    match digit {
        b'0'..=b'9' => Ok(digit - b'0'),
        b'a'..=b'f' => Ok(digit - b'a' + 10),
        _ => Err(Fault::Hex),
    }
}

fn byte_of(digits: &[u8; 2]) -> Result<u8, Fault> {
    let [high, low] = digits;
    Ok(digit_value(*high)? << 4 | digit_value(*low)?)
}

pub(crate) fn bytes_of(heap: Global, text: &str) -> Result<Vec<u8>, Fault> {
    let (pairs, []) = text.as_bytes().as_chunks::<2>() else {
        return Err(Fault::Hex);
    };
    pairs.iter().map(byte_of).try_collect(heap)
}

// Bytes that are shown in hex, and as `-` where there are none.
#[derive(Clone, Copy)]
pub(crate) struct Hex<'a>(pub(crate) &'a [u8]);

impl fmt::Display for Hex<'_> {
    fn fmt<W: fmt::Write>(&self, f: &mut fmt::Formatter<W>) -> fmt::Result {
        if self.0.is_empty() {
            return f.write_str("-");
        }
        for byte in self.0 {
            write!(f, "{byte:02x}")?;
        }
        Ok(())
    }
}
