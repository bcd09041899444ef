// A case: a line of the input, taken apart.
use crate::fault::Fault;
use crate::message::message_of;
use std::alloc::Global;
use std::array;
use std::str::FromStr;

#[derive(Clone, Copy)]
pub(crate) enum Algorithm {
    Sha256,
    Shake128,
    Mgf1,
    BufferedShake128,
    BufferedMgf1,
}

impl FromStr for Algorithm {
    type Err = Fault;

    fn from_str(s: &str) -> Result<Algorithm, Fault> {
        match s {
            "sha256" => Ok(Algorithm::Sha256),
            "shake128" => Ok(Algorithm::Shake128),
            "mgf1" => Ok(Algorithm::Mgf1),
            "buffered-shake128" => Ok(Algorithm::BufferedShake128),
            "buffered-mgf1" => Ok(Algorithm::BufferedMgf1),
            _ => Err(Fault::Algorithm),
        }
    }
}

#[derive(Drop)]
pub(crate) struct Case {
    pub(crate) algorithm: Algorithm,
    pub(crate) message: Vec<u8>,
    // the lengths of the pieces that are fed, from the first again until the message ends, not all 0;
    // none: the message is fed whole
    pub(crate) feeds: Option<Vec<usize>>,
    // the lengths of the pieces that are read; none: the digest is read
    pub(crate) reads: Option<Vec<usize>>,
}

fn lengths_of(heap: Global, word: &str) -> Result<Vec<usize>, Fault> {
    word.split(',')
        .map(|length| -> Result<usize, Fault> { Ok(length.parse()?) })
        .try_collect(heap)
}

// The lengths that the word lists, or none where it is the word for no list.
fn lengths_unless(heap: Global, word: &str, none: &str) -> Result<Option<Vec<usize>>, Fault> {
    if word == none {
        return Ok(None);
    }
    Ok(Some(lengths_of(heap, word)?))
}

fn feeds_of(heap: Global, word: &str) -> Result<Option<Vec<usize>>, Fault> {
    let feeds = lengths_unless(heap, word, "all")?;
    match &feeds {
        Some(lengths) if lengths.iter().all(|length| *length == 0) => Err(Fault::Feeds),
        _ => Ok(feeds),
    }
}

pub(crate) fn case_of(heap: Global, line: &str) -> Result<Case, Fault> {
    let mut words = line.splitn(4, ' ');
    let words: [Option<&str>; 4] = array::from_fn(|_| words.next());
    let [Some(algorithm), Some(message), Some(feeds), Some(reads)] = words else {
        return Err(Fault::Words);
    };
    Ok(Case {
        algorithm: algorithm.parse()?,
        message: message_of(heap, message)?,
        feeds: feeds_of(heap, feeds)?,
        reads: lengths_unless(heap, reads, "digest")?,
    })
}
