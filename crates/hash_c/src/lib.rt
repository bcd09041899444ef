// The hashes as functions for C.
#![tactic(auto)]

ghost use Rattle.std.specs.Prelude.{◌≡◌, ◌++◌, length};
ghost use Rattle.hash.specs.Keccak.{blank, lane};
ghost use Rattle.hash.specs.Mgf1.{mgf1};
ghost use Rattle.hash.specs.Rows.{front};
ghost use Rattle.hash.specs.Sha256.{sha256};
ghost use Rattle.hash.specs.Shake128.{permuted_times, shake128};

use hash::{Feeder, Hash, Mgf1Sha256, Reader, Sha256, Shake128, State, expand, permute};

// C has no type parameters, so each hash has a function of its own.
#[unsafe(no_mangle)]
pub extern "C" fn hash_shake128(input: &[u8], out: &mut [u8])
    ensures { out.new ≡ front (length out.old) (shake128 input.now) }
{
    expand::<Shake128>(input, out);
}

#[unsafe(no_mangle)]
pub extern "C" fn hash_mgf1_sha256(input: &[u8], out: &mut [u8])
    ensures { out.new ≡ front (length out.old) (mgf1 input.now) }
{
    expand::<Mgf1Sha256>(input, out);
}

// SHAKE128 of five pieces, fed one by one.
#[unsafe(no_mangle)]
pub extern "C" fn hash_shake128_of_five(
    a: &[u8],
    b: &[u8],
    c: &[u8],
    d: &[u8],
    e: &[u8],
    out: &mut [u8],
)
    ensures { out.new ≡ front (length out.old) (shake128 (a.now ++ (b.now ++ (c.now ++ (d.now ++ e.now))))) }
{
    // Call by call, as the contract has them: a loop over five names is no plainer, and wants an invariant.
    let mut feeder = Shake128::start();
    feeder.feed(a);
    feeder.feed(b);
    feeder.feed(c);
    feeder.feed(d);
    feeder.feed(e);
    let _ = feeder.turn().read(out);
}

#[unsafe(no_mangle)]
pub extern "C" fn hash_sha256(input: &[u8], digest: &mut [u8; 32])
    ensures { digest.new ≡ sha256 input.now }
{
    *digest = Sha256::digest(input);
}

// The first lane of the blank state after some permutations.
#[unsafe(no_mangle)]
pub extern "C" fn hash_permute(times: usize) -> u64
    ensures { result ≡ lane (permuted_times times blank) 0 0 }
{
    let mut state = State::blank();
    for _ in 0..times {
        state = permute(state);
    }
    state.rows()[0][0]
}
