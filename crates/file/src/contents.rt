// The contents of a sale file, gathered line by line.
ghost use Rattle.std.specs.Prelude.{◌≡◌, ◌≤◌, true, [], length, IfOk};
ghost use Rattle.file.specs.Contents.{bidders_in, items_in, sale_in, sale_by};
ghost use Rattle.file.specs.Form.{is_key};
ghost use Rattle.file.specs.Hexadecimal.{written_bytes};
ghost use Rattle.room.specs.Opening.{place_with};

use crate::faults::FileFault;
use crate::hexadecimal::decode;
use crate::line::Line;
use crate::reader::Reader;
use cipher::{KEY_BYTES, check_key};
use engine::Variant;
use list::Ordered;
use room::{MOST_BIDDERS, RegisterEntry};

/// The lot of a file, its variant and its terms, and how many bidders its register has.
/// The count stands alone, since the register comes into places that the caller lends: the first `count` of them are it.
#[derive(Clone, Copy)]
pub struct Gathered<'a> {
    /// The number of the lot.
    pub lot: u32,
    /// The variant that seals its letters.
    pub variant: Variant,
    /// Its terms, at most 64 bytes.
    pub terms: &'a [u8],
    /// How many bidders are enrolled.
    pub count: usize,
}

// A sale while it is gathered: what the lines said so far, with its register in the first of the places lent for it.
// The places stand here without a list over them: what a list held inside another struct was lent is not known after the outer one.
#[derive(Drop)]
struct Gathering<'a, 'p> {
    sale: Gathered<'a>,
    places: &'p mut [RegisterEntry],
    ghost long: { length places.now ≡ 64 },
    ghost few: { sale.count ≤ 64 },
}

// The bytes that the digits of a key write.
fn key_of(digits: &[u8]) -> [u8; KEY_BYTES]
    requires { is_key digits.now ≡ true }
    ensures { result ≡ written_bytes digits.now }
{
    let mut key = [0; KEY_BYTES];
    decode(digits, &mut key);
    key
}

// `same_places` is said of each method: a `&mut` does not say that the places lent are the same afterwards.
impl<'a> Gathering<'a, '_> {
    ghost use Rattle.file.specs.Contents.{enrolment, with_register, sale_of_items, sale_or_fault, sale_left};
    ghost use Rattle.file.specs.Form.{Items, item};
    ghost use Rattle.file.specs.Reader.{item_of};
    ghost use Rattle.file.specs.steps.Contents.{enrolling_answer, register_after, sale_so_far, goes_on, KeepsRest};
    ghost use Rattle.file.specs.steps.Line.{WellFormed};

    // Enrolls the bidder of a line. The cipher is asked of the key and never refuses it, since it was tested where its line was read.
    fn enroll(&mut self, line: u32, bidder: u32, key: &[u8]) -> Result<(), FileFault>
        requires { is_key key.now ≡ true }
        ensures answer { result
            ≡ enrolling_answer line
            (enrolment (record { bidder = bidder; key = written_bytes key.now })
            (sale_so_far self.old).register) }
        ensures register { sale_so_far self.new
            ≡ with_register
            (register_after
            (enrolment (record { bidder = bidder; key = written_bytes key.now })
            (sale_so_far self.old).register) (sale_so_far self.old).register)
            (sale_so_far self.old) }
        ensures keeps { KeepsRest self.old self.new }
        ensures same_places { self.new.places.ghost_name ≡ self.old.places.ghost_name }
    {
        let key = key_of(key);
        check_key(&key)?;
        let count = self.sale.count;
        let places = &mut *self.places;
        let mut list = Ordered { places, count };
        let enrolled = list.insert(RegisterEntry { bidder, key });
        self.sale.count = list.count;
        enrolled.map_err(|cause| FileFault::List { line, cause })?;
        Ok(())
    }

    // Takes in a line: the lot sets what was gathered, a bidder is enrolled, and an envelope changes nothing.
    fn take_in(&mut self, line: Line<'a>) -> Result<(), FileFault>
        requires { WellFormed (item_of line) }
        ensures gathers { (is : Items)
            → sale_of_items (sale_so_far self.old) (item (item_of line.entry) is)
            ≡ goes_on result (sale_so_far self.new) is }
        ensures keeps { KeepsRest self.old self.new }
        ensures same_places { self.new.places.ghost_name ≡ self.old.places.ghost_name }
    {
        match line {
            Line::Lot {
                lot,
                variant,
                terms,
            } => {
                self.sale.lot = lot;
                self.sale.variant = variant;
                self.sale.terms = terms;
                Ok(())
            }
            Line::Bidder { line, bidder, key } => self.enroll(line, bidder, key),
            Line::Envelope { line: _, digits: _ } => Ok(()),
        }
    }

    // Takes in all lines of a file, up to the first that is refused.
    fn take_all(&mut self, text: &'a [u8]) -> Result<Gathered<'a>, FileFault>
        ensures sale { sale_by result self.new.places.now
            ≡ sale_or_fault (sale_of_items (sale_so_far self.old) (items_in text.now)) }
        ensures left { sale_so_far self.new
            ≡ sale_left (sale_of_items (sale_so_far self.old) (items_in text.now)) }
        ensures few { IfOk result (λ g. g.count ≤ 64) }
        ensures keeps { KeepsRest self.old self.new }
        ensures same_places { self.new.places.ghost_name ≡ self.old.places.ghost_name }
    {
        let mut reader = Reader::new(text);
        // No `for`, which needs a bound on the calls: a reader that refuses a line refuses it again at each call.
        while let Some(line) = reader.read()? {
            self.take_in(line)?;
        }
        Ok(self.sale)
    }
}

/// Gathers what a file says: the register comes into the first of the places, by rising bidder.
///
/// # Errors
/// The fault of the first line that breaks a rule. The bidders enrolled before it stay in their places.
pub fn gather<'a>(
    text: &'a [u8],
    places: &mut [RegisterEntry; MOST_BIDDERS],
) -> Result<Gathered<'a>, FileFault>
    ensures sale { sale_by result places.new ≡ sale_in text.now }
    ensures few { IfOk result (λ g. g.count ≤ 64) }
    ensures places { places.new ≡ place_with (bidders_in text.now) places.old }
{
    // Nothing is known before the first line. The lot, the variant and the terms here are never answered: the line of the lot comes first.
    let mut gathering = Gathering {
        sale: Gathered {
            lot: 0,
            variant: Variant::Dumbo,
            terms: &[],
            count: 0,
        },
        places,
    };
    gathering.take_all(text)
}
