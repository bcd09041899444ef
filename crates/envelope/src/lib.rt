// Envelopes: files of records that hold public keys, signatures and days.
#![tactic(auto)]

pub mod couple;
pub mod judge;
pub mod kind;
pub mod reader;
pub mod reading;
pub mod record;
mod tally;
