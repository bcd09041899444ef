// SHAKE128: a sponge over Keccak-f[1600] with blocks of 168 bytes.
ghost use Rattle.std.specs.Prelude.{◌≡◌, ◌<◌, ◌++◌, length, map, take};
ghost use Rattle.std.specs.Simd.Lanes.{digits_l, number_l};
ghost use Rattle.std.proofs.Common.{rules};
ghost use Rattle.hash.specs.Keccak.{permuted};
ghost use Rattle.hash.specs.Lanes.{lanes_of};
ghost use Rattle.hash.specs.Layers.{held_bytes};
ghost use Rattle.hash.specs.Rows.{Row};
ghost use Rattle.hash.specs.Shake128.{lane_bytes, mixed, padding, shake128, sponge, squeezed, state_bytes};
ghost use Rattle.hash.specs.RowBytes.{shake128_below};

use crate::block_input::{Absorb, BlockInput, Held};
use crate::block_output::{BlockOutput, Squeeze};
use crate::interface::{Feeder, Hash};
use crate::keccak::{Plane, State, permute, xor};

// The length of a block.
const RATE: usize = 168;

// The word of eight bytes, the low byte first. Under `map`, the library's method by itself does not prove.
fn load(bytes: [u8; 8]) -> u64
    ensures { result ≡ number_l 256 bytes }
{
    u64::from_le_bytes(bytes)
}

// A row of words.
fn load_row(words: [[u8; 8]; 5]) -> Plane
    ensures { result.lanes ≡ map (number_l 256) words }
{
    Plane {
        lanes: words.map(load),
    }
}

// Adds a block to the state, row by row: the last row has only one word of it.
fn mix(state: State, block: &[u8; RATE]) -> State
    ensures { lanes_of result ≡ mixed (lanes_of state) block.now }
{
    let (words, _) = block.as_chunks::<8>();
    let (rows, last) = words.as_chunks::<5>();
    let last = Plane {
        lanes: [load(last[0]), 0, 0, 0, 0],
    };
    let [y0, y1, y2, y3, y4] = state.rows;
    State {
        rows: [
            xor(y0, load_row(rows[0])),
            xor(y1, load_row(rows[1])),
            xor(y2, load_row(rows[2])),
            xor(y3, load_row(rows[3])),
            xor(y4, last),
        ],
    }
}

// The bytes of a row, lane by lane.
fn row_bytes(row: [u64; 5]) -> [[u8; 8]; 5]
    ensures { result ≡ map (digits_l 256 8) row }
{
    row.map(u64::to_le_bytes)
}

// The first bytes of the state.
fn front_block(state: State) -> [u8; RATE]
    ensures { result ≡ take 168 (state_bytes (lanes_of state)) }
{
    let rows = state.rows().map(row_bytes);
    let bytes = rows.as_flattened().as_flattened();
    let mut block = [0; RATE];
    block.copy_from_slice(&bytes[..RATE]);
    block
}

// The last block: the held bytes and the padding.
fn padded(held: &Held<RATE>) -> [u8; RATE]
    ensures { result ≡ held_bytes held.now ++ padding (length (held_bytes held.now)) }
{
    let mut block = held.marked(0x1F);
    block[RATE - 1] ^= 0x80;
    block
}

// The state between two blocks. It is not `Copy`, so that nothing can be fed after the turn.
pub struct Sponge(State);

impl Absorb<RATE> for Sponge {
    ghost Answer = { Row };

    ghost answer = { λ s m. squeezed (sponge (lanes_of s.0) m) };

    ghost size = { Prim.search rules };

    fn absorb(&mut self, block: &[u8; RATE]) {
        let Sponge(state) = self;
        *state = permute(mix(*state, block));
    }
}

// Before the permutation that makes the next block.
impl Squeeze<RATE> for State {
    ghost row = { λ s. squeezed (permuted (lanes_of s)) };

    ghost some = { Prim.search rules };

    fn squeeze(&mut self) -> [u8; RATE] {
        *self = permute(*self);
        front_block(*self)
    }
}

// SHAKE128 of FIPS 202.
pub struct Shake128;

impl Hash for Shake128 {
    type Feeder = BlockInput<Sponge, Held<RATE>>;

    ghost rule = { shake128 };

    ghost bytes = { shake128_below };

    fn start() -> Self::Feeder {
        BlockInput::new(Sponge(State::blank()))
    }
}

// Feeding is the layer's; the turn is each hash's own, so each has an impl of its own.
impl Feeder for BlockInput<Sponge, Held<RATE>> {
    ghost use Rattle.hash.specs.Layers.{input_answer};

    type Reader = BlockOutput<State, RATE>;

    ghost rule = { λ f. input_answer (λ s m. squeezed (sponge (lanes_of s.0) m)) f };

    fn feed(&mut self, bytes: &[u8]) {
        self.put(bytes);
    }

    fn turn(self) -> Self::Reader {
        let BlockInput {
            below: Sponge(state),
            held,
        } = self;
        BlockOutput::new(mix(state, &padded(&held)))
    }
}
