// MGF1 of RFC 8017 over SHA-256, a hash with endless output.
ghost use Rattle.std.proofs.Common.{rules};
ghost use Rattle.hash.specs.Digest.{pending};
ghost use Rattle.hash.specs.Mgf1.{mask_from, mgf1, mgf1_over};
ghost use Rattle.hash.specs.Sha256.{initial};
ghost use Rattle.hash.specs.Sha256 as SpecsSha256;
ghost use Rattle.hash.specs.RowBytes.{digest_below};

use crate::block_output::{BlockOutput, Squeeze};
use crate::compression::DIGEST;
use crate::interface::{Feeder, Hash};
use crate::sha256::Sha256;

// The seed, taken in, and the number of the next block, modulo 2^32.
#[derive(Drop)]
pub struct Mgf1Blocks {
    seed: Sha256,
    counter: u32,
}

impl Squeeze<DIGEST> for Mgf1Blocks {
    ghost row = { λ s. mask_from s.counter (pending s.seed) };

    ghost some = { Prim.search rules };

    fn squeeze(&mut self) -> [u8; DIGEST] {
        let mut sha = self.seed;
        sha.update(&self.counter.to_be_bytes());
        self.counter = self.counter.wrapping_add(1);
        sha.finish()
    }
}

// MGF1 over SHA-256.
pub struct Mgf1Sha256;

// The seed, as far as it is fed. Unlike `Sha256` it is not `Copy`, so that nothing can be fed after the turn.
pub struct Mgf1Sha256Feeder {
    seed: Sha256,
}

impl Hash for Mgf1Sha256 {
    type Feeder = Mgf1Sha256Feeder;

    ghost rule = { mgf1 };

    ghost bytes = { unfold mgf1 SpecsSha256.sha256 in λ m k. digest_below initial 0 _ _ };

    fn start() -> Self::Feeder {
        Mgf1Sha256Feeder {
            seed: Sha256::new(),
        }
    }
}

impl Feeder for Mgf1Sha256Feeder {
    type Reader = BlockOutput<Mgf1Blocks, DIGEST>;

    ghost rule = { λ f. mgf1_over (pending f.seed) };

    fn feed(&mut self, bytes: &[u8]) {
        self.seed.update(bytes);
    }

    fn turn(self) -> Self::Reader {
        let Mgf1Sha256Feeder { seed } = self;
        BlockOutput::new(Mgf1Blocks { seed, counter: 0 })
    }
}
