// The trials of known answers by an engine.
ghost use Rattle.std.specs.Prelude.{◌≡◌, map, IfOk};
ghost use Rattle.vectors.specs.Bytes.{changed};
ghost use Rattle.vectors.specs.KnownAnswers.{sealing_agreement, checking, opening_agreement, refusal_of_tag, agreement, sample, disagreeing_numbers};
ghost use Rattle.vectors.specs.Tallies.{tally};
ghost use Rattle.vectors.specs.Views.{known_answer};

use crate::records::Record;
use crate::tallies::Tally;
use cipher::{CipherFault, check, seal};
use engine::Engine;
use std::alloc::{AllocError, Global};

/// What came of trials of records: how many agreed, and the numbers of those that did not.
#[derive(Drop)]
pub struct Trials {
    pub tally: Tally,
    pub disagreeing: Vec<usize>,
}

/// Tries every `step`-th record, from the first on.
pub fn try_records<E: Engine>(
    heap: Global,
    engine: &E,
    step: usize,
    records: &[Record],
) -> Result<Trials, AllocError>
    ensures tally { let tried = sample step 0 (map known_answer records.now) in
        IfOk result (λ t. t.tally ≡ tally (map (agreement (E.kind engine.now)) tried)) }
    ensures disagreeing { let tried = sample step 0 (map known_answer records.now) in
        IfOk result (λ t. t.disagreeing.items ≡ disagreeing_numbers (E.kind engine.now) tried) }
{
    let mut outcomes = Vec::new(heap);
    let mut disagreeing = Vec::new(heap);
    let mut few = 0usize;
    for known in records {
        if few > 0 {
            few -= 1;
        } else {
            few = step.saturating_sub(1);
            let agreed = agrees(heap, engine, known)?;
            outcomes.push(agreed)?;
            if !agreed {
                disagreeing.push(known.number)?;
            }
        }
    }
    Ok(Trials {
        tally: Tally::of(&outcomes),
        disagreeing,
    })
}

// Whether the record is sealed to what it says, found right, opened to its text, and refused under a changed tag.
fn agrees<E: Engine>(heap: Global, engine: &E, known: &Record) -> Result<bool, AllocError>
    ensures { IfOk result (λ b. b ≡ agreement (E.kind engine.now) (known_answer known.now)) }
{
    let seals = seals(heap, engine, known)?;
    let opens = opens(heap, engine, known)?;
    let refuses = refuses_changed(heap, engine, known)?;
    Ok(seals && opens && refuses)
}

// Whether the text is sealed to the record's sealed text and tag.
fn seals<E: Engine>(heap: Global, engine: &E, known: &Record) -> Result<bool, AllocError>
    ensures { let a = known_answer known.now in
        IfOk result (λ b. b ≡ sealing_agreement (E.kind engine.now) a) }
{
    let mut sealed = vec![in heap; 0u8; known.sealed.len()]?;
    let mut tag = vec![in heap; 0u8; known.tag.len()]?;
    let answer = seal(
        engine,
        &known.key,
        &known.nonce,
        &known.associated,
        &known.text,
        &mut sealed,
        &mut tag,
    );
    Ok(answer.is_ok() && sealed == known.sealed && tag == known.tag)
}

// Whether the sealed text is found right and opened to the record's text.
fn opens<E: Engine>(heap: Global, engine: &E, known: &Record) -> Result<bool, AllocError>
    ensures { let a = known_answer known.now in
        IfOk result (λ b. b ≡ opening_agreement (checking (E.kind engine.now) a a.tag) a.text) }
{
    let mut text = vec![in heap; 0u8; known.text.len()]?;
    let Ok(checked) = check(
        engine,
        &known.key,
        &known.nonce,
        &known.associated,
        &known.sealed,
        &known.tag,
    ) else {
        return Ok(false);
    };
    match checked.open(engine, &mut text) {
        Ok(()) => Ok(text == known.text),
        Err((_, checked)) => {
            let _ = checked.into_sealed();
            Ok(false)
        }
    }
}

// Whether the sealed text is refused as wrong under its tag with one bit changed, another one from record to record.
fn refuses_changed<E: Engine>(heap: Global, engine: &E, known: &Record) -> Result<bool, AllocError>
    ensures { let a = known_answer known.now in
        let tag_place = changed a.number a.tag in
        IfOk result (λ b. b ≡ refusal_of_tag (checking (E.kind engine.now) a tag_place)) }
{
    let mut tag = Vec::from_slice(heap, &known.tag)?;
    change_bit(&mut tag, known.number);
    match check(
        engine,
        &known.key,
        &known.nonce,
        &known.associated,
        &known.sealed,
        &tag,
    ) {
        Err(CipherFault::WrongTag) => Ok(true),
        Err(_) => Ok(false),
        Ok(checked) => {
            let _ = checked.into_sealed();
            Ok(false)
        }
    }
}

// Changes bit n, counted through the bytes, and then through the bits of each.
fn change_bit(bytes: &mut [u8], n: usize)
    ensures { bytes.new ≡ changed n bytes.old }
{
    if bytes.is_empty() {
        return;
    }
    let place = n % bytes.len();
    let bit = n / bytes.len() % 8;
    bytes[place] ^= 1u8 << bit;
}
