// A layer over any hash that collects up to 64 fed bytes before it hands them down.
ghost use Rattle.hash.specs.Rows.{Row};
ghost use Rattle.std.proofs.Common.{rules};

use crate::block_input::{Absorb, BlockInput, Held};
use crate::interface::{Feeder, Hash};

// How many bytes are handed down at a time.
const CAPACITY: usize = 64;

// The hash `H` behind a buffer. It has the same rule.
pub struct Buffered<H>(H);

// The feeder below the buffer. It is not `Copy`, whichever feeder it holds, so that nothing can be fed after the turn.
pub struct Below<F>(F);

impl<F: Feeder> Absorb<CAPACITY> for Below<F> {
    ghost Answer = { Row };

    ghost answer = { λ b. F.Feeder.rule b.0 };

    ghost size = { Prim.search rules };

    fn absorb(&mut self, block: &[u8; CAPACITY]) {
        let Below(feeder) = self;
        feeder.feed(block);
    }
}

// A feeder behind a buffer. Feeding is the layer's; the turn is its own, so it has an impl of its own.
impl<F: Feeder> Feeder for BlockInput<Below<F>, Held<CAPACITY>> {
    ghost use Rattle.hash.specs.Layers.{input_answer};

    type Reader = F::Reader;

    ghost rule = { λ f. input_answer (λ b. F.Feeder.rule b.0) f };

    fn feed(&mut self, bytes: &[u8]) {
        self.put(bytes);
    }

    fn turn(self) -> Self::Reader {
        let BlockInput {
            below: Below(mut below),
            held,
        } = self;
        below.feed(held.bytes());
        below.turn()
    }
}

impl<H: Hash> Hash for Buffered<H> {
    type Feeder = BlockInput<Below<H::Feeder>, Held<CAPACITY>>;

    ghost rule = { H.Hash.rule };

    ghost bytes = { Prim.search rules };

    fn start() -> Self::Feeder {
        BlockInput::new(Below(H::start()))
    }
}
