// A key and a signature of one set.
use crate::kind::Set;
use crate::record::Part;

#[derive(Clone, Copy)]
pub struct Couple<'a> {
    pub set: Set,
    pub key: Part<'a>,
    pub signature: Part<'a>,
}
