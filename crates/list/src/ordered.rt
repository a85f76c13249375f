// The list itself: its entries are the first places of a lent slice.

ghost use Rattle.std.specs.Prelude.{◌≡◌, ◌+◌, ◌-◌, ◌<◌, ◌≤◌, ◌∷◌, ◌++◌, length, take, drop, Ok, Err};
ghost use Rattle.list.specs.Insertion.{empty_over, entries_of, has_equal, count_ahead, refusal, unless_refused, answer_of, count_after, places_after};
ghost use Rattle.list.specs.Keeping.{RisingStaysRising, KeepsEveryEntry};

use crate::entry::Entry;
use crate::faults::ListFault;

/// An ordered list over places that the caller lends. Over places that hold entries already it is made by writing both fields.
#[derive(Drop)]
pub struct Ordered<'a, T> {
    /// The places, of which the first hold the entries.
    pub places: &'a mut [T],
    /// How many entries there are; where it is above the number of places, every place holds one.
    pub count: usize,
}

impl<'a, T: Entry> Ordered<'a, T> {
    /// The empty list over these places.
    pub fn new(places: &'a mut [T]) -> Ordered<'a, T>
        ensures { result ≡ empty_over places.entry }
    {
        Ordered { places, count: 0 }
    }

    /// The entries, in their order.
    pub fn entries(&self) -> &[T]
        ensures { result.now ≡ entries_of self.now }
    {
        let used = self.count.min(self.places.len());
        &self.places[..used]
    }

    // The checks of an insertion, in their order.
    fn admits(&self, e: &T) -> Result<(), ListFault>
        ensures { result
            ≡ unless_refused (refusal T.compares e.now self.now.places.now self.now.count) (Ok tt)
            Err }
    {
        if has_equal(self.entries(), e) {
            return Err(ListFault::EqualEntry);
        }
        if self.count >= self.places.len() {
            return Err(ListFault::Full);
        }
        Ok(())
    }

    /// Inserts an entry at its place in the order, and answers the new count.
    pub fn insert(&mut self, e: T) -> Result<usize, ListFault>
        ensures answer { result ≡ answer_of T.compares e self.old.places.now self.old.count }
        ensures count { self.new.count
            ≡ count_after T.compares e self.old.places.now self.old.count }
        ensures places { self.new.places.now
            ≡ places_after T.compares e self.old.places.now self.old.count }
        ensures rising_stays_rising { RisingStaysRising T.compares (entries_of self.old) (entries_of self.new) }
        ensures keeps_every_entry { KeepsEveryEntry e (entries_of self.old) (entries_of self.new) result }
        ensures same_places { self.new.places.ghost_name ≡ self.old.places.ghost_name }
    {
        self.admits(&e)?;
        let at = count_ahead(self.entries(), &e);
        let count = self.count;
        store_at(self.places, at, count, e);
        self.count = count + 1;
        Ok(count + 1)
    }
}

// Whether one of the entries is equal in order to `e`.
fn has_equal<T: Entry>(entries: &[T], e: &T) -> bool
    ensures { result ≡ has_equal T.compares e.now entries.now }
{
    entries.iter().any(|x| x.compare(e).is_eq())
}

// How many entries at the front come before `e`. They are looked at one by one, since the entries of a list made over any places need not rise.
fn count_ahead<T: Entry>(entries: &[T], e: &T) -> usize
    ensures { result ≡ count_ahead T.compares e.now entries.now }
{
    entries.iter().take_while(|x| x.compare(e).is_lt()).count()
}

// Moves what lies from `at` up to `end` one place on, over the place at `end`, and stores `e` at `at`.
fn store_at<T: Copy>(places: &mut [T], at: usize, end: usize, e: T)
    requires { (at ≤ end) × (end < length places.old) }
    ensures { places.new
        ≡ take at places.old
        ++ (e ∷ (take (end - at) (drop at places.old) ++ drop (end + 1) places.old)) }
{
    places[end] = e;
    places[at..end + 1].rotate_right(1);
}
