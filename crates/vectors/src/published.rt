// The published values of the permutations: Keccak-f[200] of zeros and of that again, and a hash by SPONGENT-160/160/16,
// whose permutation is Jumbo's.
ghost use Rattle.std.specs.Prelude.{◌≡◌, [], ◌∷◌, OnOk};
ghost use Rattle.cipher.specs.Blocks.{xor_of};
ghost use Rattle.engine.specs.Calls.{one_answer, one_after};
ghost use Rattle.engine.specs.Permutation.{permutation};
ghost use Rattle.vectors.specs.Published.{is_writing, is_permutation, keccak_trials, sponge_state, sponge_output, at_22_bytes, hash_answer, spongent_trials};
ghost use Rattle.vectors.specs.Tallies.{tally};

use crate::tallies::Tally;
use engine::{Engine, EngineFault};

const KECCAK_BYTES: usize = 25;

const KECCAK_ONCE: &str = "3C2826841CB35C171EAAE9B811134CEAA3852C69D2C5ABAFEA";

const KECCAK_TWICE: &str = "1BEF689492A8A543A5999FDB834E3166A14BE827D95040479E";

const SPONGENT_BYTES: usize = 22;

const DIGEST_BYTES: usize = 20;

const MESSAGE: &str = "Sponge + Present = Spongent";

const DIGEST: &str = "13188A4917EA29E258362C047B9BF00C22B5FE91";

// Whether these are the bytes that hexadecimal digits write.
fn are_written<const N: usize>(bytes: &[u8; N], digits: &str) -> bool
    ensures { result ≡ is_writing digits.now bytes.now }
{
    let mut written = [0u8; N];
    hex::decode_to_slice(digits, &mut written).is_ok() && written == *bytes
}

// Permutes a block, and answers whether that is granted and gives what the digits write.
fn permutes_to<E: Engine>(engine: &E, block: &mut [u8; KECCAK_BYTES], digits: &str) -> bool
    ensures answer { result ≡ is_permutation (E.kind engine.now) block.old digits.now }
    ensures block { block.new ≡ one_after (E.kind engine.now) block.old }
{
    engine.one(block).is_ok() && are_written(block, digits)
}

/// Has an engine of Delirium permute zeros, and what comes of them once more, and counts the published values met.
pub fn try_keccak<E: Engine>(engine: &E) -> Tally
    ensures { let trials = keccak_trials (E.kind engine.now) KECCAK_ONCE.now KECCAK_TWICE.now in
        result ≡ tally trials }
{
    let mut block = [0u8; KECCAK_BYTES];
    let once = permutes_to(engine, &mut block, KECCAK_ONCE);
    let twice = permutes_to(engine, &mut block, KECCAK_TWICE);
    Tally::of(&[once, twice])
}

type State = [u8; SPONGENT_BYTES];

// Absorbs two bytes into the first two of the state.
fn absorb<E: Engine>(
    engine: &E,
    state: &mut State,
    first: u8,
    second: u8,
) -> Result<(), EngineFault>
    ensures answer { result ≡ at_22_bytes (E.kind engine.now) tt }
    ensures state { let absorbed = xor_of state.old (first ∷ second ∷ []) in
        state.new ≡ one_after (E.kind engine.now) absorbed }
{
    state[0] ^= first;
    state[1] ^= second;
    engine.one(state)
}

// Absorbs a message into the state, and 80 (hexadecimal) after it, and a zero where there is room.
fn absorb_all<E: Engine>(engine: &E, state: &mut State, message: &[u8]) -> Result<(), EngineFault>
    ensures answer { result ≡ at_22_bytes (E.kind engine.now) tt }
    ensures state { let f = permutation (E.kind engine.now) in
        OnOk result (state.new ≡ sponge_state f state.old message.now) }
{
    let mut rest = message;
    while let [first, second, more @ ..] = rest {
        absorb(engine, state, *first, *second)?;
        rest = more;
    }
    match rest {
        [] => absorb(engine, state, 0x80, 0),
        [last, ..] => absorb(engine, state, *last, 0x80),
    }
}

// Squeezes a digest from the state.
fn squeeze<E: Engine>(engine: &E, state: &mut State) -> Result<[u8; DIGEST_BYTES], EngineFault>
    ensures { let v = E.kind engine.now in
        result ≡ at_22_bytes v (sponge_output (permutation v) 10 state.old) }
{
    let mut digest = [0u8; DIGEST_BYTES];
    for k in 0..DIGEST_BYTES / 2 {
        digest[2 * k..2 * k + 2].copy_from_slice(&state[..2]);
        engine.one(state)?;
    }
    Ok(digest)
}

// The hash of a message.
fn hash<E: Engine>(engine: &E, message: &[u8]) -> Result<[u8; DIGEST_BYTES], EngineFault>
    ensures { result ≡ hash_answer (E.kind engine.now) message.now }
{
    let mut state = [0u8; SPONGENT_BYTES];
    absorb_all(engine, &mut state, message)?;
    squeeze(engine, &mut state)
}

/// Hashes the message by an engine of Jumbo, and counts whether the published digest is met.
pub fn try_spongent<E: Engine>(engine: &E) -> Tally
    ensures { result ≡ tally (spongent_trials (E.kind engine.now) MESSAGE.now DIGEST.now) }
{
    let met = match hash(engine, MESSAGE.as_bytes()) {
        Ok(digest) => are_written(&digest, DIGEST),
        Err(_) => false,
    };
    Tally::of(&[met])
}
