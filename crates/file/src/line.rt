// The lines of a sale file: what each says, judged alone and by its place in the form.
ghost use Rattle.std.specs.Prelude.{◌≡◌};
ghost use Rattle.file.specs.Form.{variant_of, lot_line_item, bidder_line_item, envelope_line_item, line_must_be, line_must_say, verdict_on};
ghost use Rattle.file.specs.Reader.{item_said};
ghost use Rattle.file.specs.steps.Line.{verdict_of};

use crate::faults::FileFault;
use crate::fields::split_once;
use crate::hexadecimal::are_digits;
use crate::numbers::number;
use cipher::KEY_BYTES;
use engine::Variant;
use envelope::MOST_TERMS_BYTES;

// The digits of a key.
const KEY_DIGITS: usize = 2 * KEY_BYTES;

/// What a line says. Terms and hexadecimal digits are borrowed from the bytes read, and `line` is the number of the line, counted from 1.
#[derive(Clone, Copy)]
pub enum Line<'a> {
    /// The lot on sale, the variant that seals its letters, and its terms.
    Lot {
        lot: u32,
        variant: Variant,
        terms: &'a [u8],
    },
    /// A bidder, and the digits of its key.
    Bidder {
        line: u32,
        bidder: u32,
        key: &'a [u8],
    },
    /// The digits of an envelope.
    Envelope {
        line: u32,
        digits: &'a [u8],
    },
}

// Which line the form wants next.
#[derive(Clone, Copy)]
pub(crate) enum Section {
    // The names of the lot's values.
    LotNames,
    // The lot, its variant and its terms.
    LotValues,
    // The empty line behind the lot.
    LotEnd,
    // The names of a bidder's values.
    BidderNames,
    // A bidder.
    FirstBidder,
    // One more bidder, or the empty line behind the last.
    Bidders,
    // The name of the envelopes.
    EnvelopeNames,
    // An envelope, or the end of the file.
    Envelopes,
}

// A line that is as it must be: what it says, if anything, and what the form wants behind it.
#[derive(Clone, Copy)]
pub(crate) struct Step<'a> {
    pub(crate) said: Option<Line<'a>>,
    pub(crate) next: Section,
}

// A variant by its name. No `TryFrom`, since the variant is another crate's type, and these names are the file's alone.
fn variant_named(name: &[u8]) -> Option<Variant>
    ensures { result ≡ variant_of name.now }
{
    match name {
        b"dumbo" => Some(Variant::Dumbo),
        b"jumbo" => Some(Variant::Jumbo),
        b"delirium" => Some(Variant::Delirium),
        _ => None,
    }
}

// Line n as the lot, its variant and its terms. Here and below the number goes along with the text only for the fault and for the case that
// names it.
fn lot_line(n: u32, line: &[u8]) -> Result<Line<'_>, FileFault>
    ensures { item_said result ≡ lot_line_item n line.now }
{
    let broken = FileFault::Form { line: n };
    let (lot, rest) = split_once(line, b',').ok_or(broken)?;
    let (name, terms) = split_once(rest, b',').ok_or(broken)?;
    let lot = number(lot).ok_or(broken)?;
    let variant = variant_named(name).ok_or(broken)?;
    if terms.len() > MOST_TERMS_BYTES {
        return Err(FileFault::TermsLength { line: n });
    }
    Ok(Line::Lot {
        lot,
        variant,
        terms,
    })
}

// Line n as a bidder and its key.
fn bidder_line(n: u32, line: &[u8]) -> Result<Line<'_>, FileFault>
    ensures { item_said result ≡ bidder_line_item n line.now }
{
    let broken = FileFault::Form { line: n };
    let (bidder, key) = split_once(line, b',').ok_or(broken)?;
    let bidder = number(bidder).ok_or(broken)?;
    if key.len() != KEY_DIGITS || !are_digits(key) {
        return Err(broken);
    }
    Ok(Line::Bidder {
        line: n,
        bidder,
        key,
    })
}

// Line n as an envelope.
fn envelope_line(n: u32, line: &[u8]) -> Result<Line<'_>, FileFault>
    ensures { item_said result ≡ envelope_line_item n line.now }
{
    if line.is_empty() || line.len() % 2 != 0 || !are_digits(line) {
        return Err(FileFault::Form { line: n });
    }
    Ok(Line::Envelope {
        line: n,
        digits: line,
    })
}

// Line n, which must have one text.
fn must_be<'a>(text: &[u8], next: Section, n: u32, line: &'a [u8]) -> Result<Step<'a>, FileFault>
    ensures { verdict_of result ≡ line_must_be text.now next n line.now }
{
    if line != text {
        return Err(FileFault::Form { line: n });
    }
    Ok(Step { said: None, next })
}

// A line that must say something: what it says, or why not.
fn must_say<'a>(said: Result<Line<'a>, FileFault>, next: Section) -> Result<Step<'a>, FileFault>
    ensures { verdict_of result ≡ line_must_say (item_said said.entry) next }
{
    Ok(Step {
        said: Some(said?),
        next,
    })
}

// Line n, where the form wants a line of the section.
pub(crate) fn judge(section: Section, n: u32, line: &[u8]) -> Result<Step<'_>, FileFault>
    ensures { verdict_of result ≡ verdict_on section n line.now }
{
    match section {
        Section::LotNames => must_be(b"lot,variant,terms", Section::LotValues, n, line),
        Section::LotValues => must_say(lot_line(n, line), Section::LotEnd),
        Section::LotEnd => must_be(b"", Section::BidderNames, n, line),
        Section::BidderNames => must_be(b"bidder,key", Section::FirstBidder, n, line),
        Section::Bidders if line.is_empty() => Ok(Step {
            said: None,
            next: Section::EnvelopeNames,
        }),
        Section::FirstBidder | Section::Bidders => {
            must_say(bidder_line(n, line), Section::Bidders)
        }
        Section::EnvelopeNames => must_be(b"envelope", Section::Envelopes, n, line),
        Section::Envelopes => must_say(envelope_line(n, line), Section::Envelopes),
    }
}
