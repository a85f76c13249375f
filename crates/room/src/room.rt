// A room: an engine, and a place that the caller holds.
ghost use Rattle.std.specs.Prelude.{◌≡◌};
ghost use Rattle.engine.specs.declared.variants.Variant.{Variant as Kind};
ghost use Rattle.room.specs.Sales.{Sale, Lodging};
ghost use Rattle.room.specs.Calls.{LodgingOf, Asking, Closing, Met, without_number};
ghost use Rattle.room.specs.Making.{Made};
ghost use Rattle.room.specs.Opening.{Lent, Opened};

use crate::admission::Op;
use crate::faults::RoomFault;
use crate::guard::Guard;
use crate::opening::check_places;
use crate::register::RegisterEntry;
use crate::sheet::SheetEntry;
use crate::state::RoomState;
use engine::Engine;

/// A room. It is put together by writing both fields. Over a fresh place it is a closed room of lot 0 without bidders, until it is made.
#[derive(Drop)]
pub struct Room<'r, E: Engine + Drop> {
    /// The place of the room.
    pub inner: &'r mut RoomState,
    /// The engine by which its envelopes are checked and opened.
    pub engine: E,
}

// That engine and place stay is said at each call that takes a `&mut`, which says of neither that it is the same afterwards. Asking and opening
// take a `&`: they change nothing of a room.
impl<'r, E: Engine + Drop> Room<'r, E> {
    /// Makes the room: it is open afterwards, and nothing is lodged yet. A refusal leaves the place as it was.
    ///
    /// # Errors
    ///
    /// `TermsLength` for terms of more than 64 bytes, and then `Register` for a register that has not 1 to 64 entries by rising bidder.
    pub fn make(
        &mut self,
        lot: u32,
        terms: &[u8],
        register: &[RegisterEntry],
    ) -> Result<(), RoomFault>
        ensures made { (v : Kind) →
            let sale : Sale = record {
              variant = v;
              lot = lot;
              terms = terms.now;
              register = register.now;
            } in
            Made sale self.old.inner.now result self.new.inner.now }
        ensures engine { self.new.engine ≡ self.old.engine }
        ensures place { self.new.inner.ghost_name ≡ self.old.inner.ghost_name }
    {
        self.inner.make(lot, terms, register)
    }

    /// Lodges an envelope, and answers its sequence. A refusal leaves the room as it was.
    ///
    /// # Errors
    ///
    /// In this order: `Closed`, `EnvelopeLength`, `OtherLot`, `UnknownBidder`, `SequenceNotAbove` for one that is not above the bidder's last
    /// accepted, and `WrongTag` where its tag is wrong.
    pub fn lodge(&mut self, envelope: &[u8]) -> Result<u32, RoomFault>
        ensures meets { let lodging : Lodging = record { envelope = envelope.now } in
            Met (E.kind self.old.engine) self.old.inner.now (LodgingOf lodging) result self.new.inner.now }
        ensures engine { self.new.engine ≡ self.old.engine }
        ensures place { self.new.inner.ghost_name ≡ self.old.inner.ghost_name }
    {
        self.inner.lodge(&self.engine, envelope)
    }

    /// The last accepted sequence of a bidder, 0 at first.
    ///
    /// # Errors
    ///
    /// `UnknownBidder` for one who is not in the register.
    pub fn ask(&self, bidder: u32) -> Result<u32, RoomFault>
        ensures meets { let room = self.now.inner.now in
            Met (E.kind self.now.engine) room (Asking bidder) result room }
    {
        self.inner.ask(bidder)
    }

    /// Ends lodging.
    ///
    /// # Errors
    ///
    /// `Closed` for a room that is closed already.
    pub fn close(&mut self) -> Result<(), RoomFault>
        ensures meets { let answer = without_number result in
            Met (E.kind self.old.engine) self.old.inner.now Closing answer self.new.inner.now }
        ensures engine { self.new.engine ≡ self.old.engine }
        ensures place { self.new.inner.ghost_name ≡ self.old.inner.ghost_name }
    {
        self.inner.close()
    }

    /// Opens all that was lodged: lists each bidder whose amount is above 0 on the sheet, writes the page, and answers its length in bytes. The
    /// work area is all zero afterwards, granted or refused. The room stays as it is.
    ///
    /// # Errors
    ///
    /// `NotClosed` before the closing, and then `Places` where `sheet` has less than 64 entries, `page` less than 2,258 bytes, or `work` not
    /// just 64 bytes.
    pub fn open(
        &self,
        sheet: &mut [SheetEntry],
        page: &mut [u8],
        work: &mut [u8],
    ) -> Result<usize, RoomFault>
        ensures opened { let room = self.now.inner.now in
            let given : Lent = record { sheet = sheet.old; page = page.old; work = work.old } in
            let back : Lent = record { sheet = sheet.new; page = page.new; work = work.new } in
            Opened (E.kind self.now.engine) room given result back room }
    {
        let guard = Guard { work };
        self.inner.admits(Op::Open)?;
        check_places(sheet, page)?;
        let work = guard.work.as_mut_array().ok_or(RoomFault::Places)?;
        self.inner.print(&self.engine, sheet, page, work)
    }
}
