// What a hash is: a start gives a feeder, a feeder turns into a reader, a reader gives bytes.
ghost use Rattle.std.specs.Prelude.{◌≡◌, ℕ, ◌<◌, List, [], length};
ghost use Rattle.hash.specs.Rows.{Row, Rule, after, front, past};

// Takes bytes, in pieces of any length, and is then turned into a reader.
pub trait Feeder {
    type Reader: Reader + Drop;

    // the row that would be read, for every list of bytes that may still be fed
    ghost rule: { Self → Rule };

    fn feed(&mut self, bytes: &[u8])
        ensures { rule self.new ≡ after bytes.now (rule self.old) };

    fn turn(self) -> Self::Reader
        ensures { Self.Reader.Reader.row result ≡ rule self [] };
}

// Gives the bytes of an endless row, in pieces of any length.
pub trait Reader {
    // what is still to be read
    ghost row: { Self → Row };

    // Fills `out` with the next bytes, and gives a reader of the rest.
    fn read(self, out: &mut [u8]) -> Self
        ensures filled { out.new ≡ front (length out.old) (row self) }
        ensures rest { row result ≡ past (length out.old) (row self) };
}

// A hash with endless output. Nothing here refuses.
pub trait Hash {
    type Feeder: Feeder;

    // the row of every input
    ghost rule: { Rule };

    fn start() -> Self::Feeder
        ensures { Self.Feeder.Feeder.rule result ≡ rule };

    ghost bytes: { (m : List ℕ) (k : ℕ) → rule m k < 256 };
}
