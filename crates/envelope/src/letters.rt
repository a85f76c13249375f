// Letters: what a bidder writes, in 64 bytes whatever it says.
ghost use Rattle.std.specs.Prelude.{◌≡◌, ◌≤◌, length};
ghost use Rattle.envelope.specs.Letters.{letter as letter_for, is_lawful, amount_offered, all_zero};

/// The bytes of a letter.
pub const LETTER_BYTES: usize = 64;

// The most bytes of a note.
pub(crate) const MOST_NOTE_BYTES: usize = 55;

// The most that an amount may be, in cents.
pub(crate) const MOST_CENTS: u64 = 999_999_999_999;
// Where the note's length stands in a letter, and where the note begins.
const NOTE_LENGTH_AT: usize = 8;

const NOTE_AT: usize = NOTE_LENGTH_AT + 1;

// The letter of an amount and a note.
pub(crate) fn letter_of(amount: u64, note: &[u8]) -> [u8; LETTER_BYTES]
    requires { length note.now ≤ 55 }
    ensures { result ≡ letter_for amount note.now }
{
    let mut letter = [0u8; LETTER_BYTES];
    letter[..NOTE_LENGTH_AT].copy_from_slice(&amount.to_be_bytes());
    letter[NOTE_LENGTH_AT] = note.len() as u8;
    letter[NOTE_AT..NOTE_AT + note.len()].copy_from_slice(note);
    letter
}

/// The amount that a letter offers, in cents. It is 0 where the letter is unlawful: by the rules such a letter offers nothing, as one of amount 0.
pub fn amount_in(letter: &[u8]) -> u64
    ensures { result ≡ amount_offered letter.now }
{
    match letter.first_chunk() {
        Some(amount) if is_lawful(letter) => u64::from_be_bytes(*amount),
        _ => 0,
    }
}

/// Whether a letter is lawful: all of its bytes are looked at, and not its note alone.
pub fn is_lawful(letter: &[u8]) -> bool
    ensures { result ≡ is_lawful letter.now }
{
    let Some((amount, rest)) = letter.split_first_chunk() else {
        return false;
    };
    let [note_bytes, text @ ..] = rest else {
        return false;
    };
    let note_bytes = *note_bytes as usize;
    letter.len() == LETTER_BYTES
        && u64::from_be_bytes(*amount) <= MOST_CENTS
        && note_bytes <= MOST_NOTE_BYTES
        && all_zero(&text[note_bytes..])
}

// Whether all bytes are zero.
fn all_zero(bytes: &[u8]) -> bool
    ensures { result ≡ all_zero bytes.now }
{
    bytes.iter().all(|b| *b == 0)
}
