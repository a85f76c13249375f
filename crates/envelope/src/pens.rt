// Pens: they hand out heads for one lot under its terms.
ghost use Rattle.std.specs.Prelude.{◌≡◌};
ghost use Rattle.envelope.specs.Pens.{pen_answer, pen_seen, Taken};

use crate::faults::EnvelopeFault;
use crate::heads::{Head, HeadFields};
use crate::terms::{MOST_TERMS_BYTES, Terms};

const LAST_SEQUENCE: u32 = 4_294_967_295;

/// A pen for a lot and its terms. One counter gives sequences 1, 2, 3 and on for all bidders.
#[derive(Drop)]
pub struct Pen {
    lot: u32,
    terms: Terms,
    given: u32,
}

impl Pen {
    /// Makes a pen, which has given no head yet. It is refused with `TermsLength` for terms of more than 64 bytes.
    pub fn new(lot: u32, terms: &[u8]) -> Result<Pen, EnvelopeFault>
        ensures { pen_seen result ≡ pen_answer lot terms.now }
    {
        if terms.len() > MOST_TERMS_BYTES {
            return Err(EnvelopeFault::TermsLength);
        }
        Ok(Pen {
            lot,
            terms: Terms::new(terms),
            given: 0,
        })
    }

    /// Takes the next head, for a bidder. It is refused with `HeadsSpent` once the last sequence is given, and leaves the pen as it was.
    pub fn take(&mut self, bidder: u32) -> Result<Head, EnvelopeFault>
        ensures { Taken self.old bidder result self.new }
    {
        if self.given == LAST_SEQUENCE {
            return Err(EnvelopeFault::HeadsSpent);
        }
        self.given += 1;
        let fields = HeadFields {
            lot: self.lot,
            bidder,
            sequence: self.given,
        };
        Ok(Head {
            fields,
            terms: self.terms,
        })
    }
}
