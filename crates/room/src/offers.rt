// The amounts that bidders offer: their last accepted letters, checked again and opened.
ghost use Rattle.std.specs.Prelude.{◌≡◌, length, if◌then◌else◌};
ghost use Rattle.std.specs.Str.{bytes_eq};
ghost use Rattle.cipher.specs.Mode.{tag_size, tag as tag_of, opened_text};
ghost use Rattle.envelope.specs.Letters.{amount_offered};
ghost use Rattle.room.specs.Rooms.{envelope_in};
ghost use Rattle.room.specs.Calls.{amount_held};

use crate::conditions::Conditions;
use crate::faults::RoomFault;
use crate::slots::Slot;
use cipher::{CipherFault, KEY_BYTES, check, tag_bytes};
use engine::Engine;
use envelope::{HEAD_BYTES, HeadFields, LETTER_BYTES, amount_in, head_of};

impl<E: Engine> Conditions<'_, E> {
    // The amount that a slot's bidder offers. It is 0 where no envelope stands, as for a bid withdrawn: the rules do not tell these apart. Any
    // fault of the cipher but a wrong tag is passed up by `?`, though none ever comes: what a slot keeps has lawful sizes.
    pub(crate) fn amount_of(
        &self,
        slot: &Slot,
        work: &mut [u8; LETTER_BYTES],
    ) -> Result<u64, RoomFault>
        ensures { let v = E.kind self.now.engine.now in
            let envelope = envelope_in v self.now.lot slot.now in
            result ≡ Ok (amount_held v slot.now.key self.now.terms.now envelope) }
    {
        if slot.sequence == 0 {
            return Ok(0);
        }
        let nonce = head_of(HeadFields {
            lot: self.lot,
            bidder: slot.bidder,
            sequence: slot.sequence,
        });
        let t = tag_bytes(self.engine.variant());
        self.open_amount(&slot.key, &nonce, &slot.letter, &slot.tag[..t], work)
    }

    // The amount in a sealed letter, and 0 where its tag is wrong. Key and nonce are slices, whose elements are known to be bytes.
    fn open_amount(
        &self,
        key: &[u8],
        nonce: &[u8],
        sealed: &[u8; LETTER_BYTES],
        tag: &[u8],
        work: &mut [u8; LETTER_BYTES],
    ) -> Result<u64, RoomFault>
        requires key { length key.now ≡ KEY_BYTES }
        requires nonce { length nonce.now ≡ HEAD_BYTES }
        requires tag { length tag.now ≡ tag_size (E.kind self.now.engine.now) }
        ensures { let v = E.kind self.now.engine.now in
            result
            ≡ Ok (if bytes_eq tag.now (tag_of v key.now nonce.now self.now.terms.now sealed.now)
            then amount_offered (opened_text v key.now nonce.now sealed.now)
            else 0) }
    {
        let text = match check(self.engine, key, nonce, self.terms, sealed, tag) {
            Ok(text) => text,
            Err(CipherFault::WrongTag) => return Ok(0),
            Err(fault) => Err(fault)?,
        };
        text.open(self.engine, work).map_err(|(fault, text)| {
            let _ = text.into_sealed();
            fault
        })?;
        Ok(amount_in(work))
    }
}
