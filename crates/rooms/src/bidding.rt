// Envelopes of bids, as bidders make them.
use anyhow::anyhow;
use cipher::{KEY_BYTES, seal, tag_bytes};
use engine::Engine;
use envelope::{EnvelopeFault, HeadFields, LETTER_BYTES, Pen, head_of, seal_bid};
use std::alloc::Global;

// The key of a bidder.
pub fn key_of(bidder: u32) -> [u8; KEY_BYTES] {
    [(bidder % 256) as u8; KEY_BYTES]
}

// Seals a bid with the next head of a pen.
pub fn bid<E: Engine>(
    engine: &E,
    pen: &mut Pen,
    bidder: u32,
    amount: u64,
    note: &[u8],
    place: &mut [u8],
) -> Result<(), EnvelopeFault> {
    let head = pen.take(bidder)?;
    seal_bid(engine, &key_of(bidder), head, amount, note, place)
}

// The envelope of an unlawful letter, all bytes of which are 255, under a head that no pen gave. Its tag is right.
pub fn seal_unlawful<E: Engine>(
    alloc: Global,
    engine: &E,
    fields: HeadFields,
    terms: &[u8],
) -> anyhow::Result<Vec<u8>> {
    let head = head_of(fields);
    let letter = [255u8; LETTER_BYTES];
    let mut sealed = [0u8; LETTER_BYTES];
    let mut tag = vec![in alloc; 0u8; tag_bytes(engine.variant())]?;
    let key = key_of(fields.bidder);
    if seal(engine, &key, &head, terms, &letter, &mut sealed, &mut tag).is_err() {
        return Err(anyhow!("an unlawful letter is not sealed"));
    }
    let mut envelope = Vec::from_slice(alloc, &head)?;
    envelope.extend_from_slice(&sealed)?;
    envelope.extend_from_slice(&tag)?;
    Ok(envelope)
}
