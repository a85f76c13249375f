// Opening: the amounts of all bidders onto the sheet, and the page.
ghost use Rattle.std.specs.Prelude.{◌≡◌, ◌+◌, ◌^◌, ◌<◌, ◌≤◌, ◌&&◌, [], ◌∷◌, length, All, if◌then◌else◌, nat_le, nat_lt, slice_set};
ghost use Rattle.std.specs.List.{AllByRecursion};
ghost use Rattle.fault.specs.Checks.{decision};
ghost use Rattle.list.specs.Insertion.{entries_of};
ghost use Rattle.room.specs.Rising.{RiseByBidder};
ghost use Rattle.room.specs.Rooms.{contents_of};
ghost use Rattle.room.specs.Calls.{sheet_of, page_of_room};
ghost use Rattle.room.specs.Opening.{place_with};
ghost use Rattle.room.specs.Slots.{sheet_in};
ghost use Rattle.room.specs.declared.faults.RoomFault.TheVariants.{Places};

use crate::conditions::Conditions;
use crate::faults::RoomFault;
use crate::printing::put_page;
use crate::sheet::SheetEntry;
use crate::slots::Slot;
use crate::state::{MOST_BIDDERS, RoomState};
use engine::Engine;
use envelope::LETTER_BYTES;
use list::Ordered;

/// The longest page, in bytes: the line of names and 64 lines of 35 bytes.
pub const MOST_PAGE_BYTES: usize = 2258;

// Refuses a sheet and a page that have not their sizes.
pub(crate) fn check_places(sheet: &[SheetEntry], page: &[u8]) -> Result<(), RoomFault>
    ensures { let wide = nat_le MOST_BIDDERS (length sheet.now) in
        let long = nat_le MOST_PAGE_BYTES (length page.now) in
        result ≡ decision ((wide && long, Places) ∷ []) tt }
{
    if sheet.len() < MOST_BIDDERS || page.len() < MOST_PAGE_BYTES {
        return Err(RoomFault::Places);
    }
    Ok(())
}

impl RoomState {
    // Fills the sheet and writes the page, and answers the length of the page. A fault of the cipher or the list is passed up by `?`, though none
    // ever comes, here as in the functions below.
    pub(crate) fn print<E: Engine>(
        &self,
        engine: &E,
        sheet: &mut [SheetEntry],
        page: &mut [u8],
        work: &mut [u8; LETTER_BYTES],
    ) -> Result<usize, RoomFault>
        requires sheet { MOST_BIDDERS ≤ length sheet.old }
        requires page { MOST_PAGE_BYTES ≤ length page.old }
        ensures answer { let room = contents_of (E.kind engine.now) self.now in
            result ≡ Ok (length (page_of_room room)) }
        ensures sheet { let room = contents_of (E.kind engine.now) self.now in
            sheet.new ≡ place_with (sheet_of room) sheet.old }
        ensures page { let room = contents_of (E.kind engine.now) self.now in
            page.new ≡ place_with (page_of_room room) page.old }
    {
        let conditions = Conditions {
            engine,
            lot: self.lot,
            terms: &self.terms[..self.terms_bytes],
        };
        let n = conditions.fill_sheet(&self.slots[..self.count], sheet, work)?;
        Ok(put_page(page, self.lot, &sheet[..n]))
    }
}

impl<E: Engine> Conditions<'_, E> {
    // Lists on the sheet each bidder whose amount is above 0, and answers how many there are. `fit` says that the bidders' numbers have 32 bits, as
    // `enroll` does of a register.
    fn fill_sheet(
        &self,
        slots: &[Slot],
        sheet: &mut [SheetEntry],
        work: &mut [u8; LETTER_BYTES],
    ) -> Result<usize, RoomFault>
        requires places { length slots.now ≤ length sheet.old }
        requires rising { RiseByBidder slots.now }
        ensures count { let v = E.kind self.now.engine.now in
            let listed = sheet_in v self.now.lot self.now.terms.now slots.now in
            result ≡ Ok (length listed) }
        ensures sheet { let v = E.kind self.now.engine.now in
            let listed = sheet_in v self.now.lot self.now.terms.now slots.now in
            sheet.new ≡ place_with listed sheet.old }
        ensures fit { AllByRecursion (λ x. x.bidder < 2 ^ 32) slots.now }
    {
        let mut listed = Ordered::new(sheet);
        for slot in slots {
            let Slot { bidder, .. } = slot;
            let offer = SheetEntry {
                bidder: *bidder,
                amount: self.amount_of(slot, work)?,
            };
            put_entry(&mut listed, offer)?;
        }
        Ok(listed.count)
    }
}

// Inserts an entry whose amount is above 0 into the sheet. Its bidder is above those of all entries there, so the list grants it the next place.
fn put_entry(sheet: &mut Ordered<SheetEntry>, offer: SheetEntry) -> Result<(), RoomFault>
    requires room { sheet.old.count < length sheet.old.places.now }
    requires last { All (λ x. x.bidder < offer.bidder) (entries_of sheet.old) }
    ensures granted { result ≡ Ok tt }
    ensures count { let n = sheet.old.count in
        sheet.new.count ≡ (if nat_lt 0 offer.amount then n + 1 else n) }
    ensures places { let before = sheet.old.places.now in
        let after = slice_set before sheet.old.count offer in
        sheet.new.places.now ≡ (if nat_lt 0 offer.amount then after else before) }
    ensures same_places { sheet.new.places.ghost_name ≡ sheet.old.places.ghost_name }
{
    if offer.amount > 0 {
        sheet.insert(offer)?;
    }
    Ok(())
}
