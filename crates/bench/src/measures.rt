// How long blocks and sealed texts take: the best of many short runs, in nanoseconds.
use cipher::{seal, tag_bytes};
use engine::Engine;
use envelope::LETTER_BYTES;
use std::time::Instant;

const RUNS: u32 = 2000;

const KEY: [u8; 16] = [7; 16];

const NONCE: [u8; 12] = [5; 12];

const TERMS: [u8; 16] = [3; 16];

// The time of a call, by the best of many runs of so many calls.
fn time_of<F: FnMut()>(rt: &HostRuntime, runs: u32, calls: u32, mut call: F) -> anyhow::Result<u128>
    requires { F.IsAlwaysCallable call }
{
    let mut best = u128::MAX;
    for _run in 0..runs {
        let start = Instant::now(rt)?;
        for _call in 0..calls {
            call();
        }
        best = best.min(start.elapsed(rt)?.as_nanos());
    }
    Ok(best / u128::from(calls.max(1)))
}

// The time of a whole call that seals a text under the terms.
fn time_seal<E: Engine>(
    rt: &HostRuntime,
    engine: &E,
    text: &[u8],
    out: &mut [u8],
    runs: u32,
) -> anyhow::Result<u128> {
    let mut tag = vec![in rt.alloc(); 0u8; tag_bytes(engine.variant())]?;
    time_of(rt, runs, 1, || {
        let _ = seal(engine, &KEY, &NONCE, &TERMS, text, out, &mut tag);
    })
}

// A line of the table of engines.
pub fn measure_engine<E: Engine>(
    rt: &HostRuntime,
    name: &str,
    engine: &E,
    calls: u32,
) -> anyhow::Result<()> {
    eprintln!(rt; "measuring {name}")?;
    let n = engine.variant().block_bytes();
    let mut block = vec![in rt.alloc(); 7u8; n]?;
    let one = time_of(rt, RUNS, calls, || {
        let _ = engine.one(&mut block);
    })?;
    let mut blocks = vec![in rt.alloc(); 7u8; 4 * n]?;
    let four = time_of(rt, RUNS, calls, || {
        let _ = engine.four(&mut blocks);
    })? / 4;
    let text = [9u8; LETTER_BYTES];
    let mut out = [0u8; LETTER_BYTES];
    let letter = time_seal(rt, engine, &text, &mut out, RUNS)?;
    println!(rt; "{name},{one},{four},{letter}")?;
    Ok(())
}

// The lines of an engine in the table of text lengths: 64 bytes to 64 KiB.
pub fn measure_texts<E: Engine>(rt: &HostRuntime, name: &str, engine: &E) -> anyhow::Result<()> {
    for n in [64usize, 256, 1024, 4096, 16384, 65536] {
        eprintln!(rt; "measuring {name}, {n} bytes")?;
        let text = vec![in rt.alloc(); 9u8; n]?;
        let mut out = vec![in rt.alloc(); 0u8; n]?;
        let time = time_seal(rt, engine, &text, &mut out, 100)?;
        println!(rt; "{name},{n},{time}")?;
    }
    Ok(())
}
