// A hash in one call.
ghost use Rattle.std.specs.Prelude.{◌≡◌, length};
ghost use Rattle.hash.specs.Rows.{front};

use crate::interface::{Feeder, Hash, Reader};

// Fills `out` with the first bytes that `H` gives for the input.
pub fn expand<H: Hash>(input: &[u8], out: &mut [u8])
    ensures { out.new ≡ front (length out.old) (H.Hash.rule input.now) }
{
    let mut feeder = H::start();
    feeder.feed(input);
    let reader = feeder.turn();
    let _ = reader.read(out);
}
