// Input in pieces of any length, for what takes whole blocks.
ghost use Rattle.std.specs.Prelude.{◌≡◌, ℕ, ◌+◌, ◌-◌, ◌^◌, ◌<◌, List, ◌∷◌, ◌++◌, length, replicate, take};
ghost use Rattle.hash.specs.Rows.{after};

// What takes its input in blocks of `SIZE` bytes.
pub trait Absorb<const SIZE: usize> {
    // what comes out in the end
    ghost Answer: { Type 0 };

    // what comes out, for every list of bytes that may still be taken
    ghost answer: { Self → List ℕ → Answer };

    fn absorb(&mut self, block: &[u8; SIZE])
        ensures { answer self.new ≡ after block.now (answer self.old) };

    // a block has a byte, and fits in memory
    ghost size: { (0 < SIZE) × (SIZE < 2 ^ 63) };
}

// The bytes of a block that is not yet whole: the first `count` of the buffer. The count stands beside it, since a
// `Vec` could find no memory, and a vector of fixed capacity is not `Copy`.
#[derive(Clone, Copy)]
pub struct Held<const SIZE: usize> {
    buffer: [u8; SIZE],
    count: usize,
    ghost room: { count < SIZE },
}

impl<const SIZE: usize> Held<SIZE> {
    ghost use Rattle.hash.specs.Layers.{held_bytes};

    pub(crate) fn bytes(&self) -> &[u8]
        ensures held { result.now ≡ held_bytes self.now }
        ensures room { length result.now < SIZE }
    {
        &self.buffer[..self.count]
    }

    // A last block: the bytes held, a mark, and zeros to its end.
    pub(crate) fn marked(&self, mark: u8) -> [u8; SIZE]
        ensures room { length (held_bytes self.now) < SIZE }
        ensures block { result ≡ held_bytes self.now ++ mark ∷ replicate (SIZE - 1 - length (held_bytes self.now)) 0 }
    {
        let held = self.bytes();
        let mut block = [0; SIZE];
        block[..held.len()].copy_from_slice(held);
        block[held.len()] = mark;
        block
    }
}

// What takes blocks, behind the bytes of a block that is not yet whole. `H` is `Held<SIZE>`: with `SIZE` as the
// parameter, a caller with any `A` would have to show that the struct fits in memory.
#[derive(Clone, Copy)]
pub struct BlockInput<A, H> {
    pub(crate) below: A,
    pub(crate) held: H,
}

impl<A: Absorb<SIZE>, const SIZE: usize> BlockInput<A, Held<SIZE>> {
    ghost use Rattle.hash.specs.Layers.{input_answer};

    pub(crate) fn new(below: A) -> Self
        ensures { input_answer A.Absorb.answer result ≡ A.Absorb.answer below }
    {
        let held = Held {
            buffer: [0; SIZE],
            count: 0,
        };
        BlockInput { below, held }
    }

    // Takes bytes behind those that are held.
    pub(crate) fn put(&mut self, bytes: &[u8])
        ensures { input_answer A.Absorb.answer self.new ≡ after bytes.now (input_answer A.Absorb.answer self.old) }
    {
        let Some((first, rest)) = bytes.split_at_checked(SIZE - self.held.count) else {
            self.hold(bytes);
            return;
        };
        self.complete(first);
        let rest = absorb_whole(&mut self.below, rest);
        self.hold(rest);
    }

    // Takes bytes that do not make the block whole.
    fn hold(&mut self, bytes: &[u8])
        requires { self.old.held.count + length bytes.now < SIZE }
        ensures { input_answer A.Absorb.answer self.new ≡ after bytes.now (input_answer A.Absorb.answer self.old) }
    {
        let start = self.held.count;
        let end = start + bytes.len();
        let buffer = &mut self.held.buffer[..];
        buffer[start..end].copy_from_slice(bytes);
        self.held.count = end;
    }

    // Hands down the held bytes with those that make them a whole block.
    fn complete(&mut self, bytes: &[u8])
        requires { self.old.held.count + length bytes.now ≡ SIZE }
        ensures empty { self.new.held.count ≡ 0 }
        ensures taken { A.Absorb.answer self.new.below ≡ after bytes.now (input_answer A.Absorb.answer self.old) }
    {
        let start = self.held.count;
        let buffer = &mut self.held.buffer[..];
        buffer[start..].copy_from_slice(bytes);
        self.below.absorb(&self.held.buffer);
        self.held.count = 0;
    }
}

// Takes all whole blocks off the front, and answers the rest.
fn absorb_whole<'a, A: Absorb<SIZE>, const SIZE: usize>(below: &mut A, bytes: &'a [u8]) -> &'a [u8]
    ensures short { length result.now < SIZE }
    ensures taken { after result.now (A.Absorb.answer below.new) ≡ after bytes.now (A.Absorb.answer below.old) }
{
    let (blocks, rest) = bytes.as_chunks::<SIZE>();
    for block in blocks {
        below.absorb(block);
    }
    rest
}
