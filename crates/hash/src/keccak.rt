// The permutation Keccak-f[1600], on a state that is passed by value.
ghost use Rattle.std.specs.Prelude.{◌≡◌, bit_xor, slice_index};
ghost use Rattle.hash.specs.Keccak.{blank, constants, distance, effect, five, permuted, rotated, round, state, θ, ι, π, ρ, χ};
ghost use Rattle.hash.specs.Lanes.{lanes_of, χ_row};

use std::array;

// A row of five lanes, those with one y; FIPS 202 calls it a plane.
#[derive(Clone, Copy)]
pub struct Plane {
    pub(crate) lanes: [u64; 5],
}

impl Plane {
    // The lanes alone. Under `map`, a closure that takes a field out tells a proof nothing of it.
    fn into_lanes(self) -> [u64; 5]
        ensures { result ≡ self.lanes }
    {
        self.lanes
    }
}

// Five rows, by their y. `lanes_of` says once what they stand for; a `Model` would be that and its inverse.
#[derive(Clone, Copy)]
pub struct State {
    pub(crate) rows: [Plane; 5],
}

impl State {
    // All lanes 0.
    pub fn blank() -> Self
        ensures { lanes_of result ≡ blank }
    {
        State {
            rows: [Plane { lanes: [0; 5] }; 5],
        }
    }

    // The lanes, row by row.
    pub fn rows(self) -> [[u64; 5]; 5]
        ensures { result ≡ lanes_of self }
    {
        self.rows.map(Plane::into_lanes)
    }
}

const ROUND_CONSTANTS: [u64; 24] = [
    0x0000000000000001,
    0x0000000000008082,
    0x800000000000808a,
    0x8000000080008000,
    0x000000000000808b,
    0x0000000080000001,
    0x8000000080008081,
    0x8000000000008009,
    0x000000000000008a,
    0x0000000000000088,
    0x0000000080008009,
    0x000000008000000a,
    0x000000008000808b,
    0x800000000000008b,
    0x8000000000008089,
    0x8000000000008003,
    0x8000000000008002,
    0x8000000000000080,
    0x000000000000800a,
    0x800000008000000a,
    0x8000000080008081,
    0x8000000000008080,
    0x0000000080000001,
    0x8000000080008008,
];

const ROTATIONS: [[u32; 5]; 5] = [
    [0, 1, 62, 28, 27],
    [36, 44, 6, 55, 20],
    [3, 10, 43, 25, 39],
    [41, 45, 15, 21, 8],
    [18, 2, 61, 56, 14],
];

// A table has no clause of its own: a function for each says what its table is.
fn round_constants() -> [u64; 24]
    ensures { result ≡ constants }
{
    ROUND_CONSTANTS
}

// How far ρ turns each lane.
fn rotations() -> [[u32; 5]; 5]
    ensures { result ≡ state distance }
{
    ROTATIONS
}

// The sum of two rows, lane by lane.
pub(crate) fn xor(a: Plane, b: Plane) -> Plane
    ensures { result.lanes ≡ five (λ x. bit_xor (slice_index a.lanes x) (slice_index b.lanes x)) }
{
    Plane {
        lanes: array::from_fn(|x| a.lanes[x] ^ b.lanes[x]),
    }
}

// What θ adds to each lane of a column.
fn theta_effect(s: State) -> Plane
    ensures { result.lanes ≡ five (effect (lanes_of s)) }
{
    let [y0, y1, y2, y3, y4] = s.rows;
    let sums = xor(xor(xor(xor(y0, y1), y2), y3), y4);
    let c = sums.lanes;
    Plane {
        lanes: array::from_fn(|x| c[(x + 4) % 5] ^ c[(x + 1) % 5].rotate_left(1)),
    }
}

fn theta(s: State) -> State
    ensures { lanes_of result ≡ θ (lanes_of s) }
{
    let effect = theta_effect(s);
    State {
        rows: s.rows.map(|row| xor(row, effect)),
    }
}

// A row of which each lane is turned by its own distance.
fn turned(row: Plane, distances: [u32; 5]) -> Plane
    ensures { result.lanes ≡ five (λ x. rotated (slice_index row.lanes x) (slice_index distances x)) }
{
    Plane {
        lanes: array::from_fn(|x| row.lanes[x].rotate_left(distances[x])),
    }
}

// Row by row: over both arrays, in a closure, the proof does not close.
fn rho(s: State) -> State
    ensures { lanes_of result ≡ ρ (lanes_of s) }
{
    let [y0, y1, y2, y3, y4] = s.rows;
    let [n0, n1, n2, n3, n4] = rotations();
    State {
        rows: [
            turned(y0, n0),
            turned(y1, n1),
            turned(y2, n2),
            turned(y3, n3),
            turned(y4, n4),
        ],
    }
}

fn pi(s: State) -> State
    ensures { lanes_of result ≡ π (lanes_of s) }
{
    let [a, b, c, d, e] = s.rows;
    let [a0, a1, a2, a3, a4] = a.lanes;
    let [b0, b1, b2, b3, b4] = b.lanes;
    let [c0, c1, c2, c3, c4] = c.lanes;
    let [d0, d1, d2, d3, d4] = d.lanes;
    let [e0, e1, e2, e3, e4] = e.lanes;
    let y0 = [a0, b1, c2, d3, e4];
    let y1 = [a3, b4, c0, d1, e2];
    let y2 = [a1, b2, c3, d4, e0];
    let y3 = [a4, b0, c1, d2, e3];
    let y4 = [a2, b3, c4, d0, e1];
    State {
        rows: [
            Plane { lanes: y0 },
            Plane { lanes: y1 },
            Plane { lanes: y2 },
            Plane { lanes: y3 },
            Plane { lanes: y4 },
        ],
    }
}

// A row after χ.
fn chi_row(row: Plane) -> Plane
    ensures { result.lanes ≡ χ_row row.lanes }
{
    let a = row.lanes;
    Plane {
        lanes: array::from_fn(|x| a[x] ^ (!a[(x + 1) % 5] & a[(x + 2) % 5])),
    }
}

fn chi(s: State) -> State
    ensures { lanes_of result ≡ χ (lanes_of s) }
{
    State {
        rows: s.rows.map(chi_row),
    }
}

fn iota(s: State, constant: u64) -> State
    ensures { lanes_of result ≡ ι constant (lanes_of s) }
{
    let mut rows = s.rows;
    rows[0].lanes[0] ^= constant;
    State { rows }
}

// All five steps.
fn round(s: State, constant: u64) -> State
    ensures { lanes_of result ≡ round constant (lanes_of s) }
{
    iota(chi(pi(rho(theta(s)))), constant)
}

// Keccak-f[1600].
pub fn permute(s: State) -> State
    ensures { lanes_of result ≡ permuted (lanes_of s) }
{
    let mut a = s;
    for constant in round_constants() {
        a = round(a, constant);
    }
    a
}
