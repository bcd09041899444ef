// The message of a case, from the word that describes it.
use crate::fault::Fault;
use crate::hex::bytes_of;
use std::alloc::{AllocError, Global};

pub(crate) fn message_of(heap: Global, word: &str) -> Result<Vec<u8>, Fault> {
    match word.split_once(':') {
        Some(("hex", bytes)) => bytes_of(heap, bytes),
        Some(("repeat", product)) => repeated(heap, product),
        Some(("count", length)) => Ok(counted(heap, length.parse()?)?),
        _ => Err(Fault::Message),
    }
}

// A byte in hex, `*`, and how often it stands.
fn repeated(heap: Global, product: &str) -> Result<Vec<u8>, Fault> {
    let (byte, count) = product.split_once('*').ok_or(Fault::Message)?;
    match bytes_of(heap, byte)?.as_slice() {
        [byte] => Ok(vec![in heap; *byte; count.parse()?]?),
        _ => Err(Fault::Hex),
    }
}

// Byte number `i` of `length`.
fn counted_byte(i: usize, length: usize) -> u8 {
    let sum = i
        .wrapping_mul(i)
        .wrapping_add(i.wrapping_mul(7))
        .wrapping_add(i / 256);
    (sum.wrapping_add(length) % 256) as u8
}

fn counted(heap: Global, length: usize) -> Result<Vec<u8>, AllocError> {
    (0..length).map(|i| counted_byte(i, length)).collect(heap)
}
