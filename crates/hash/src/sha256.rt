// SHA-256 of bytes that come in pieces of any length.
ghost use Rattle.std.specs.Prelude.{◌≡◌, ℕ, ◌*◌, List, []};
ghost use Rattle.std.proofs.Common.{rules};
ghost use Rattle.hash.specs.Digest.{pending};
ghost use Rattle.hash.specs.Rows.{after};
ghost use Rattle.hash.specs.Sha256.{digest_from, sha256};

use crate::block_input::{Absorb, BlockInput, Held};
use crate::compression::{BLOCK, Chain, DIGEST, compress, finish, initial};

// The chaining value after some blocks, and how many they were, modulo 2^64.
#[derive(Clone, Copy)]
pub struct ShaBlocks {
    chain: Chain,
    count: u64,
}

impl Absorb<BLOCK> for ShaBlocks {
    ghost Answer = { List ℕ };

    ghost answer = { λ s. digest_from s.chain.words (64 * s.count) };

    ghost size = { Prim.search rules };

    fn absorb(&mut self, block: &[u8; BLOCK]) {
        self.chain = compress(self.chain, block);
        self.count = self.count.wrapping_add(1);
    }
}

// SHA-256 at work.
#[derive(Clone, Copy)]
pub struct Sha256 {
    input: BlockInput<ShaBlocks, Held<BLOCK>>,
}

impl Sha256 {
    pub fn new() -> Self
        ensures { pending result ≡ sha256 }
    {
        let blocks = ShaBlocks {
            chain: initial(),
            count: 0,
        };
        Sha256 {
            input: BlockInput::new(blocks),
        }
    }

    pub fn update(&mut self, bytes: &[u8])
        ensures { pending self.new ≡ after bytes.now (pending self.old) }
    {
        self.input.put(bytes);
    }

    pub fn finish(self) -> [u8; DIGEST]
        ensures { result ≡ pending self [] }
    {
        let blocks = self.input.below;
        let held = self.input.held;
        let whole = blocks.count.wrapping_mul(BLOCK as u64);
        let total = whole.wrapping_add(held.bytes().len() as u64);
        finish(blocks.chain, total, &held)
    }

    // The digest of a whole message.
    pub fn digest(message: &[u8]) -> [u8; DIGEST]
        ensures { result ≡ sha256 message.now }
    {
        let mut sha = Sha256::new();
        sha.update(message);
        sha.finish()
    }
}
