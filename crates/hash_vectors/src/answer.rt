// The answer to a case: all bytes that are read.
use crate::case::{Algorithm, Case};
use crate::fault::Fault;
use hash::{Buffered, Feeder, Hash, Mgf1Sha256, Reader, Sha256, Shake128};
use std::alloc::{AllocError, Global};
use std::iter;

// Each round of the lengths takes a byte, since not all are 0: as many rounds as bytes are enough.
fn cut_pieces<'a>(
    heap: Global,
    message: &'a [u8],
    lengths: &[usize],
) -> Result<Vec<&'a [u8]>, AllocError> {
    let mut pieces = Vec::new(heap);
    let mut rest = message;
    for length in iter::repeat_n(lengths, message.len()).flatten() {
        if rest.is_empty() {
            break;
        }
        let (piece, behind) = rest.split_at(rest.len().min(*length));
        pieces.push(piece)?;
        rest = behind;
    }
    Ok(pieces)
}

fn pieces_of(heap: Global, case: &Case) -> Result<Vec<&[u8]>, AllocError> {
    let message = case.message.as_slice();
    match &case.feeds {
        None => Ok(vec![in heap; message]?),
        Some(lengths) => cut_pieces(heap, message, lengths.as_slice()),
    }
}

fn digest(heap: Global, pieces: &[&[u8]]) -> Result<Vec<u8>, Fault> {
    let mut hash = Sha256::new();
    for piece in pieces {
        hash.update(piece);
    }
    Ok(hash.finish().to_vec(heap)?)
}

fn reader_of<H: Hash>(pieces: &[&[u8]]) -> <H::Feeder as Feeder>::Reader {
    let mut feeder = H::start();
    for piece in pieces {
        feeder.feed(piece);
    }
    feeder.turn()
}

fn read_pieces<R: Reader + Drop>(
    heap: Global,
    mut reader: R,
    lengths: &[usize],
) -> Result<Vec<u8>, Fault> {
    let mut all = Vec::new(heap);
    for length in lengths {
        let mut piece = vec![in heap; 0; *length]?;
        reader = reader.read(piece.as_mut_slice());
        all.extend_from_slice(piece.as_slice())?;
    }
    Ok(all)
}

fn row<H: Hash>(heap: Global, pieces: &[&[u8]], lengths: &Vec<usize>) -> Result<Vec<u8>, Fault> {
    read_pieces(heap, reader_of::<H>(pieces), lengths.as_slice())
}

// Each hash is a type of its own, so the call of each is written out.
pub(crate) fn answer(heap: Global, case: &Case) -> Result<Vec<u8>, Fault> {
    let pieces = pieces_of(heap, case)?;
    let fed = pieces.as_slice();
    match (case.algorithm, &case.reads) {
        (Algorithm::Sha256, None) => digest(heap, fed),
        (Algorithm::Shake128, Some(lengths)) => row::<Shake128>(heap, fed, lengths),
        (Algorithm::Mgf1, Some(lengths)) => row::<Mgf1Sha256>(heap, fed, lengths),
        (Algorithm::BufferedShake128, Some(lengths)) => {
            row::<Buffered<Shake128>>(heap, fed, lengths)
        }
        (Algorithm::BufferedMgf1, Some(lengths)) => {
            row::<Buffered<Mgf1Sha256>>(heap, fed, lengths)
        }
        _ => Err(Fault::Reads),
    }
}
