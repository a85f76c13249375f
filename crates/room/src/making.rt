// Making of rooms, in a place that the caller holds.
ghost use Rattle.std.specs.Prelude.{◌≡◌, ◌^◌, ◌<◌, ◌≤◌, ◌++◌, map, length, drop};
ghost use Rattle.std.specs.List.{AllByRecursion};
ghost use Rattle.engine.specs.declared.variants.Variant.{Variant as Kind};
ghost use Rattle.room.specs.Sales.{Sale};
ghost use Rattle.room.specs.Slots.{new_slot};
ghost use Rattle.room.specs.Making.{Made, IsFreshPlace, is_lawful_register};

use crate::faults::RoomFault;
use crate::register::RegisterEntry;
use crate::slots::{Phase, Slot};
use crate::state::{MOST_BIDDERS, RoomState};
use cipher::KEY_BYTES;
use envelope::MOST_TERMS_BYTES;

impl RoomState {
    /// A fresh place: a closed room of lot 0 without bidders.
    pub fn fresh() -> RoomState
        ensures { IsFreshPlace result }
    {
        RoomState {
            phase: Phase::Closed,
            lot: 0,
            terms: [0; MOST_TERMS_BYTES],
            terms_bytes: 0,
            slots: [Slot::new(0, [0; KEY_BYTES]); MOST_BIDDERS],
            count: 0,
        }
    }

    // Makes an open room of a lot, terms and a register. A refusal leaves the place as it was.
    pub(crate) fn make(
        &mut self,
        lot: u32,
        terms: &[u8],
        register: &[RegisterEntry],
    ) -> Result<(), RoomFault>
        ensures { (v : Kind) →
            let sale : Sale = record {
              variant = v;
              lot = lot;
              terms = terms.now;
              register = register.now;
            } in
            Made sale self.old result self.new }
    {
        if terms.len() > MOST_TERMS_BYTES {
            return Err(RoomFault::TermsLength);
        }
        if !is_lawful(register) {
            return Err(RoomFault::Register);
        }
        let n = terms.len();
        self.terms[0..n].copy_from_slice(terms);
        self.terms_bytes = n;
        enroll(&mut self.slots, register);
        self.count = register.len();
        self.lot = lot;
        self.phase = Phase::Open;
        Ok(())
    }
}

// Writes a new slot for each entry of the register.
fn enroll(slots: &mut [Slot], register: &[RegisterEntry])
    requires { length register.now ≤ length slots.old }
    ensures slots { slots.new ≡ map new_slot register.now ++ drop (length register.now) slots.old }
    ensures fit { AllByRecursion (λ x. x.bidder < 2 ^ 32) register.now }
{
    // Indexed, since a proof knows nothing of slots that `iter_mut` has lent to a `zip`.
    for (i, entry) in register.iter().enumerate() {
        let RegisterEntry { bidder, key } = entry;
        slots[i] = Slot::new(*bidder, *key);
    }
}

// Whether a register has 1 to 64 entries by strictly rising bidder.
fn is_lawful(register: &[RegisterEntry]) -> bool
    ensures { result ≡ is_lawful_register register.now }
{
    (1..=MOST_BIDDERS).contains(&register.len())
        && register.is_sorted_by(|a, b| a.bidder < b.bidder)
}
