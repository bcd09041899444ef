// Hashes with endless output: the interface, two standard hashes, and a layer that collects input.
#![tactic(auto)]

mod block_input;
mod block_output;
mod buffered;
mod compression;
mod interface;
mod keccak;
mod mgf1;
mod once;
mod sha256;
mod shake128;

pub use buffered::Buffered;
pub use interface::{Feeder, Hash, Reader};
pub use keccak::{State, permute};
pub use mgf1::Mgf1Sha256;
pub use once::expand;
pub use sha256::Sha256;
pub use shake128::Shake128;
