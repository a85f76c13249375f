// A fast engine beside the plain one of its variant.
ghost use Rattle.std.specs.Prelude.{◌≡◌, ◌*◌, ◌≤◌, true, length, IfOk};
ghost use Rattle.engine.specs.Permutation.{block_size};
ghost use Rattle.bench.specs.Agreement.{agreement_on_one, agreement_on_four, agreement};

use crate::source::Source;
use engine::{Engine, Plain};
use std::alloc::{AllocError, Global};

const TRIALS: u32 = 64;

// Whether two engines make the same of a block.
fn agree_on_one<A: Engine, B: Engine>(
    heap: Global,
    ours: &A,
    theirs: &B,
    block: &[u8],
) -> Result<bool, AllocError>
    ensures { let v = A.kind ours.now in let w = B.kind theirs.now in
        IfOk result (λ b. b ≡ agreement_on_one v w block.now) }
{
    let mut left = Vec::from_slice(heap, block)?;
    let mut right = Vec::from_slice(heap, block)?;
    Ok(ours.one(&mut left).is_ok() && theirs.one(&mut right).is_ok() && left == right)
}

// Whether two engines make the same of four blocks.
fn agree_on_four<A: Engine, B: Engine>(
    heap: Global,
    ours: &A,
    theirs: &B,
    blocks: &[u8],
) -> Result<bool, AllocError>
    ensures { let v = A.kind ours.now in let w = B.kind theirs.now in
        IfOk result (λ b. b ≡ agreement_on_four v w blocks.now) }
{
    let mut left = Vec::from_slice(heap, blocks)?;
    let mut right = Vec::from_slice(heap, blocks)?;
    Ok(ours.four(&mut left).is_ok() && theirs.four(&mut right).is_ok() && left == right)
}

// Whether two engines make the same of four blocks by the call for four, and of the first by the call for one.
fn agree<A: Engine, B: Engine>(
    heap: Global,
    ours: &A,
    theirs: &B,
    blocks: &[u8],
) -> Result<bool, AllocError>
    ensures { IfOk result (λ b. b ≡ agreement (A.kind ours.now) (B.kind theirs.now) blocks.now) }
{
    let n = ours.variant().block_bytes().min(blocks.len());
    let four = agree_on_four(heap, ours, theirs, blocks)?;
    let one = agree_on_one(heap, ours, theirs, &blocks[..n])?;
    Ok(four && one)
}

// Whether an engine and the plain one of its variant agree on the next four blocks. They do, since every engine of a variant
// has the same permutation.
fn agrees<E: Engine>(heap: Global, engine: &E, source: &mut Source) -> Result<bool, AllocError>
    ensures { IfOk result (λ b. b ≡ true) }
{
    let variant = engine.variant();
    let mut blocks = vec![in heap; 0u8; 4 * variant.block_bytes()]?;
    source.fill(&mut blocks);
    agree(heap, engine, &Plain { variant }, &blocks)
}

// In how many of the trials an engine and the plain one agree: in all.
fn agreed_trials<E: Engine>(
    heap: Global,
    engine: &E,
    source: &mut Source,
) -> Result<u32, AllocError>
    ensures { IfOk result (λ n. n ≡ TRIALS) }
{
    let mut agreed = 0u32;
    for _trial in 0..TRIALS {
        if agrees(heap, engine, source)? {
            agreed += 1;
        }
    }
    Ok(agreed)
}

/// Tries an engine beside the plain one on blocks that look random, tells how often they agree, and answers whether they always did.
pub fn run_agreement<E: Engine>(rt: &HostRuntime, name: &str, engine: &E) -> anyhow::Result<bool> {
    let agreed = agreed_trials(rt.alloc(), engine, &mut Source::new())?;
    println!(rt; "{name} engine beside the plain one: {TRIALS} tried, {agreed} agreed")?;
    Ok(agreed == TRIALS)
}
