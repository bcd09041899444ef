// The parts of SHA-256 (FIPS 180-4): the compression of a block, and the padding at the end.
ghost use Rattle.std.specs.Prelude.{◌≡◌, ℕ, ◌+◌, ◌-◌, ◌*◌, ◌%◌, ◌^◌, ◌<◌, ◌∷◌, ◌++◌, map, length, take, drop, replicate};
ghost use Rattle.hash.specs.Layers.{held_bytes};
ghost use Rattle.hash.specs.Sha256.{added, big_endian, block_words, chain_bytes, compressed, constants, digest_from, initial, round, rounds, rotr, schedule, shr, started, word_at};
ghost use Rattle.hash.specs.Words.{◌⊕◌};
ghost use Rattle.hash.specs.Windows.{window_of};

use crate::block_input::Held;
use std::array;
use std::simd::prelude::*;

// The length of a block.
pub(crate) const BLOCK: usize = 64;

// The length of a digest.
pub(crate) const DIGEST: usize = 32;

const INITIAL: [u32; 8] = [
    0x6a09e667, 0xbb67ae85, 0x3c6ef372, 0xa54ff53a, 0x510e527f, 0x9b05688c, 0x1f83d9ab, 0x5be0cd19,
];

static ROUND_CONSTANTS: [u32; 64] = [
    0x428a2f98, 0x71374491, 0xb5c0fbcf, 0xe9b5dba5, 0x3956c25b, 0x59f111f1, 0x923f82a4, 0xab1c5ed5,
    0xd807aa98, 0x12835b01, 0x243185be, 0x550c7dc3, 0x72be5d74, 0x80deb1fe, 0x9bdc06a7, 0xc19bf174,
    0xe49b69c1, 0xefbe4786, 0x0fc19dc6, 0x240ca1cc, 0x2de92c6f, 0x4a7484aa, 0x5cb0a9dc, 0x76f988da,
    0x983e5152, 0xa831c66d, 0xb00327c8, 0xbf597fc7, 0xc6e00bf3, 0xd5a79147, 0x06ca6351, 0x14292967,
    0x27b70a85, 0x2e1b2138, 0x4d2c6dfc, 0x53380d13, 0x650a7354, 0x766a0abb, 0x81c2c92e, 0x92722c85,
    0xa2bfe8a1, 0xa81a664b, 0xc24b8b70, 0xc76c51a3, 0xd192e819, 0xd6990624, 0xf40e3585, 0x106aa070,
    0x19a4c116, 0x1e376c08, 0x2748774c, 0x34b0bcb5, 0x391c0cb3, 0x4ed8aa4a, 0x5b9cca4f, 0x682e6ff3,
    0x748f82ee, 0x78a5636f, 0x84c87814, 0x8cc70208, 0x90befffa, 0xa4506ceb, 0xbef9a3f7, 0xc67178f2,
];

// The chaining value.
#[derive(Clone, Copy)]
pub struct Chain {
    words: [u32; 8],
}

// The words of the schedule for the next sixteen rounds, four to a vector. Each vector is used by itself.
#[derive(Clone, Copy)]
struct Window {
    first: u32x4,
    second: u32x4,
    third: u32x4,
    fourth: u32x4,
}

// The working variables a to h before a round, and the words for it and the next fifteen.
#[derive(Clone, Copy)]
struct State {
    working: [u32; 8],
    window: Window,
}

// The chaining value before the first block.
pub(crate) fn initial() -> Chain
    ensures { result.words ≡ initial }
{
    Chain { words: INITIAL }
}

// A table has no clause of its own: this function says what it is.
fn round_constants() -> &'static [u32; 64]
    ensures { result.now ≡ constants }
{
    &ROUND_CONSTANTS
}

// Three rotations of a word: Σ₀ and Σ₁.
fn big_sigma<const A: u32, const B: u32, const C: u32>(x: u32) -> u32
    requires { (0 < A) × (A < 32) × (0 < B) × (B < 32) × (0 < C) × (C < 32) }
    ensures { result ≡ rotr A x ⊕ rotr B x ⊕ rotr C x }
{
    x.rotate_right(A) ^ x.rotate_right(B) ^ x.rotate_right(C)
}

// Each of four words turned right by N bits.
fn turned<const N: u32>(x: u32x4) -> u32x4
    requires { (0 < N) × (N < 32) }
    ensures { result ≡ map (rotr N) x }
{
    (x >> u32x4::splat(N)) | (x << u32x4::splat(32 - N))
}

// Two rotations and a shift of each of four words: σ₀ and σ₁.
fn small_sigma<const A: u32, const B: u32, const C: u32>(x: u32x4) -> u32x4
    requires { (0 < A) × (A < 32) × (0 < B) × (B < 32) × (C < 32) }
    ensures { result ≡ map (λ w. rotr A w ⊕ rotr B w ⊕ shr C w) x }
{
    turned::<A>(x) ^ turned::<B>(x) ^ (x >> u32x4::splat(C))
}

// Four words, from their bytes.
fn four_words(bytes: [[u8; 4]; 4]) -> u32x4
    ensures { result ≡ map (λ b. word_at b 0) bytes }
{
    u32x4::from_array(bytes.map(u32::from_be_bytes))
}

// The words of a block, four to each of the window's vectors.
fn block_window(block: &[u8; BLOCK]) -> Window
    ensures { window_of result ≡ block_words block.now }
{
    let (words, _) = block.as_chunks::<4>();
    let (fours, _) = words.as_chunks::<4>();
    Window {
        first: four_words(fours[0]),
        second: four_words(fours[1]),
        third: four_words(fours[2]),
        fourth: four_words(fours[3]),
    }
}

// The four words of the schedule after the window. The last two need σ₁ of the first two, and σ₁
// of zero is zero.
fn next_four(w: Window) -> u32x4
    ensures { window_of w ++ result ≡ schedule 4 (window_of w) }
{
    let zero = u32x4::splat(0);
    let sum = w.first
        + small_sigma::<7, 18, 3>(w.first.shuffle(w.second, [1, 2, 3, 4]))
        + w.third.shuffle(w.fourth, [1, 2, 3, 4]);
    let low = sum + small_sigma::<17, 19, 10>(w.fourth.shuffle(zero, [2, 3, 4, 5]));
    low + small_sigma::<17, 19, 10>(zero.shuffle(low, [0, 1, 4, 5]))
}

// The window four words on.
fn slid(w: Window) -> Window
    ensures { window_of result ≡ drop 4 (schedule 4 (window_of w)) }
{
    Window {
        first: w.second,
        second: w.third,
        third: w.fourth,
        fourth: next_four(w),
    }
}

// One round, with the sum of its constant and its word.
fn round(v: [u32; 8], kw: u32) -> [u32; 8]
    ensures { started result ≡ round kw 0 (started v) }
{
    let [a, b, c, d, e, f, g, h] = v;
    let t1 = h
        .wrapping_add(kw)
        .wrapping_add(((f ^ g) & e) ^ g)
        .wrapping_add(big_sigma::<6, 11, 25>(e));
    let t2 = big_sigma::<2, 13, 22>(a).wrapping_add(((a ^ b) & (b ^ c)) ^ b);
    [t1.wrapping_add(t2), a, b, c, d.wrapping_add(t1), e, f, g]
}

// Four rounds, with their constants and their words.
fn four_rounds(v: [u32; 8], k: u32x4, w: u32x4) -> [u32; 8]
    ensures { started result ≡ rounds k w (started v) }
{
    let [kw0, kw1, kw2, kw3] = (w + k).to_array();
    round(round(round(round(v, kw0), kw1), kw2), kw3)
}

// Four rounds, and the window four words on. One call alone, so that the compiler inlines it.
fn four_steps(s: State, k: [u32; 4]) -> State
    ensures working { started result.working ≡ rounds k (window_of s.window) (started s.working) }
    ensures window { window_of result.window ≡ drop 4 (schedule 4 (window_of s.window)) }
{
    State {
        working: four_rounds(s.working, u32x4::from_array(k), s.window.first),
        window: slid(s.window),
    }
}

// All rounds, from the first sixteen words of the schedule.
fn rounds(start: State) -> [u32; 8]
    ensures { started result ≡ rounds constants (schedule 48 (window_of start.window)) (started start.working) }
{
    let (fours, _) = round_constants().as_chunks::<4>();
    let mut s = start;
    for k in fours {
        s = four_steps(s, *k);
    }
    s.working
}

// Two lists of words added, word by word.
fn sums(x: [u32; 8], y: [u32; 8]) -> [u32; 8]
    ensures { result ≡ added (started x) (started y) }
{
    array::from_fn(|i| x[i].wrapping_add(y[i]))
}

// The chaining value after one more block.
pub(crate) fn compress(chain: Chain, block: &[u8; BLOCK]) -> Chain
    ensures { result.words ≡ compressed chain.words block.now }
{
    let working = chain.words;
    let window = block_window(block);
    let v = rounds(State { working, window });
    let words = sums(working, v);
    Chain { words }
}

// The chaining value as bytes, high byte first.
fn chain_bytes(chain: Chain) -> [u8; DIGEST]
    ensures { result ≡ chain_bytes chain.words }
{
    let mut out = [0; DIGEST];
    out.copy_from_slice(chain.words.map(u32::to_be_bytes).as_flattened());
    out
}

// A block with the length of the message, in bits, at its end.
fn counted(block: [u8; BLOCK], total: u64) -> [u8; BLOCK]
    ensures { result ≡ take 56 block ++ big_endian 8 (8 * (total % 2 ^ 61)) }
{
    let mut last = block;
    last[56..64].copy_from_slice(&total.wrapping_mul(8).to_be_bytes());
    last
}

// The digest of a message that ends with the bytes held: `chain` is the value after the n bytes
// before them, and `total` counts all bytes, modulo 2^61 or any multiple of it.
pub(crate) fn finish(chain: Chain, total: u64, held: &Held<BLOCK>) -> [u8; DIGEST]
    ensures { (n : ℕ) → n % 64 ≡ 0 → (n + length (held_bytes held.now)) % 2 ^ 61 ≡ total % 2 ^ 61 → result ≡ digest_from chain.words n (held_bytes held.now) }
{
    let block = held.marked(0x80);
    if held.bytes().len() < 56 {
        return chain_bytes(compress(chain, &counted(block, total)));
    }
    let next = compress(chain, &block);
    chain_bytes(compress(next, &counted([0u8; BLOCK], total)))
}
