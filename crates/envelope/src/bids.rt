// Sealing of bids into envelopes.
ghost use Rattle.std.specs.Prelude.{◌≡◌, ◌+◌, ◌≤◌, ◌++◌, length, Ok};
ghost use Rattle.fault.specs.Checks.{by_answer};
ghost use Rattle.envelope.specs.Terms.{bytes_of_terms};
ghost use Rattle.envelope.specs.Envelopes.{envelope_size, envelope_of, bid};
ghost use Rattle.envelope.specs.Calls.{bid_answer};

use crate::faults::EnvelopeFault;
use crate::heads::{HEAD_BYTES, Head, head_of};
use crate::letters::{LETTER_BYTES, MOST_CENTS, MOST_NOTE_BYTES, letter_of};
use crate::terms::MOST_TERMS_BYTES;
use cipher::{check_key, seal, tag_bytes};
use engine::{Engine, Variant};

/// The bytes of a variant's envelopes.
pub fn envelope_bytes(variant: Variant) -> usize
    ensures { result ≡ envelope_size variant }
{
    HEAD_BYTES + LETTER_BYTES + tag_bytes(variant)
}

/// Seals a bid: writes the envelope of a head, an amount in cents and a note under the head's terms. The head is used up, granted or refused.
/// After a refusal the place is as it was. Amount and note are lent one by one, here and below: a struct of both would be made for each call
/// alone.
#[tactic(auto, using(crate::proofs::TermsLaws::terms_short))]
pub fn seal_bid<E: Engine>(
    engine: &E,
    key: &[u8],
    head: Head,
    amount: u64,
    note: &[u8],
    place: &mut [u8],
) -> Result<(), EnvelopeFault>
    ensures answer { result ≡ bid_answer (E.kind engine.now) key.now amount note.now place.old }
    ensures place { place.new
        ≡ by_answer result
        (bid (E.kind engine.now) key.now (bytes_of_terms head.terms) head.fields.lot
        head.fields.bidder head.fields.sequence amount note.now) place.old }
{
    let Head { fields, terms } = head;
    check_bid(engine.variant(), key, amount, note, place)?;
    let letter = letter_of(amount, note);
    let mut held = [0u8; MOST_TERMS_BYTES];
    terms.put(&mut held);
    put_envelope(
        engine,
        key,
        &head_of(fields),
        &held[..terms.bytes()],
        &letter,
        place,
    )
}

// The checks of a bid, in their order.
fn check_bid(
    variant: Variant,
    key: &[u8],
    amount: u64,
    note: &[u8],
    place: &[u8],
) -> Result<(), EnvelopeFault>
    ensures { result ≡ bid_answer variant key.now amount note.now place.now }
{
    check_key(key)?;
    if place.len() != envelope_bytes(variant) {
        return Err(EnvelopeFault::EnvelopeLength);
    }
    if note.len() > MOST_NOTE_BYTES {
        return Err(EnvelopeFault::NoteLength);
    }
    if amount > MOST_CENTS {
        return Err(EnvelopeFault::AmountAboveLimit);
    }
    Ok(())
}

// Writes the envelope of a head and a letter under a key and terms, all of lawful sizes. The letter is sealed where it stands in the
// envelope, with its tag behind it. `granted`: a fault of the cipher is passed up by `?`, though none comes once the sizes are checked.
fn put_envelope<E: Engine>(
    engine: &E,
    key: &[u8],
    nonce: &[u8; HEAD_BYTES],
    terms: &[u8],
    letter: &[u8; LETTER_BYTES],
    place: &mut [u8],
) -> Result<(), EnvelopeFault>
    requires key { length key.now ≡ 16 }
    requires terms { length terms.now ≤ 64 }
    requires place { length place.old ≡ envelope_size (E.kind engine.now) }
    ensures granted { result ≡ Ok tt }
    ensures place { place.new
        ≡ envelope_of (E.kind engine.now) key.now terms.now nonce.now letter.now }
{
    let (head, rest) = place.split_at_mut(HEAD_BYTES);
    let (sealed, tag) = rest.split_at_mut(LETTER_BYTES);
    head.copy_from_slice(nonce);
    seal(engine, key, nonce, terms, letter, sealed, tag)?;
    Ok(())
}
