// Output in pieces of any length, from what gives whole blocks.
ghost use Rattle.std.specs.Prelude.{◌≡◌, ◌+◌, ◌<◌, ◌≤◌, length};
ghost use Rattle.hash.specs.Rows.{Gives, Row};

use crate::interface::Reader;

// What gives an endless row in blocks of `SIZE` bytes.
pub trait Squeeze<const SIZE: usize> {
    // what is still to come
    ghost row: { Self → Row };

    // Gives the next block.
    fn squeeze(&mut self) -> [u8; SIZE]
        ensures { Gives SIZE (row self.old) result (row self.new) };

    // no block is empty
    ghost some: { 0 < SIZE };
}

// Holds the block that is being read, from `place` on.
#[derive(Drop)]
pub struct BlockOutput<S, const SIZE: usize> {
    below: S,
    buffer: [u8; SIZE],
    place: usize,
    ghost inside: { place ≤ SIZE },
}

impl<S: Squeeze<SIZE>, const SIZE: usize> BlockOutput<S, SIZE> {
    ghost use Rattle.hash.specs.Layers.{output_row};

    pub(crate) fn new(below: S) -> Self
        ensures { output_row S.Squeeze.row result ≡ S.Squeeze.row below }
    {
        BlockOutput {
            below,
            buffer: [0; SIZE],
            place: SIZE,
        }
    }

    fn fill(&mut self, out: &mut [u8])
        ensures { Gives (length out.old) (output_row S.Squeeze.row self.old) out.new (output_row S.Squeeze.row self.new) }
    {
        let Some((first, rest)) = out.split_at_mut_checked(SIZE - self.place) else {
            self.give(out);
            return;
        };
        self.give(first);
        self.give_blocks(rest);
    }

    // Gives bytes of the held block.
    fn give(&mut self, out: &mut [u8])
        requires { self.old.place + length out.old ≤ SIZE }
        ensures place { self.new.place ≡ self.old.place + length out.old }
        ensures given { Gives (length out.old) (output_row S.Squeeze.row self.old) out.new (output_row S.Squeeze.row self.new) }
    {
        let start = self.place;
        let end = start + out.len();
        let buffer = &self.buffer[..];
        out.copy_from_slice(&buffer[start..end]);
        self.place = end;
    }

    // Gives whole blocks and then less than one, once the held block is used up.
    fn give_blocks(&mut self, out: &mut [u8])
        requires { self.old.place ≡ SIZE }
        ensures { Gives (length out.old) (S.Squeeze.row self.old.below) out.new (output_row S.Squeeze.row self.new) }
    {
        // Not by `as_chunks_mut`: of what is written through it a proof knows no element.
        let blocks = out.len() / SIZE;
        for i in 0..blocks {
            let start = i * SIZE;
            out[start..start + SIZE].copy_from_slice(&self.below.squeeze());
        }
        self.finish(&mut out[blocks * SIZE..]);
    }

    // Gives less than a block, once the held block is used up.
    fn finish(&mut self, out: &mut [u8])
        requires used { self.old.place ≡ SIZE }
        requires short { length out.old < SIZE }
        ensures { Gives (length out.old) (S.Squeeze.row self.old.below) out.new (output_row S.Squeeze.row self.new) }
    {
        if out.is_empty() {
            return;
        }
        self.buffer = self.below.squeeze();
        self.place = 0;
        self.give(out);
    }
}

impl<S: Squeeze<SIZE> + Drop, const SIZE: usize> Reader for BlockOutput<S, SIZE> {
    ghost use Rattle.hash.specs.Layers.{output_row};

    ghost row = { λ r. output_row S.Squeeze.row r };

    fn read(mut self, out: &mut [u8]) -> Self {
        self.fill(out);
        self
    }
}
