// Bytes as a file writes them, two lower-case hexadecimal digits each.
ghost use Rattle.std.specs.Prelude.{◌≡◌, ◌*◌, true, length};
ghost use Rattle.file.specs.Hexadecimal.{is_hex_digit, all_hex_digits, written_bytes};

// Whether a byte is a lower-case hexadecimal digit.
fn is_digit(c: u8) -> bool
    ensures { result ≡ is_hex_digit c }
{
    matches!(c, b'0'..=b'9' | b'a'..=b'f')
}

// Whether all bytes are such digits.
pub(crate) fn are_digits(digits: &[u8]) -> bool
    ensures { result ≡ all_hex_digits digits.now }
{
    digits.iter().all(|c| is_digit(*c))
}

// Writes the bytes that digits write. There are two digits for each place, and they were tested where their line was read: so the kit, which
// admits upper-case digits too, refuses none of them, and its answer says nothing more.
#[tactic(auto, using(crate::proofs::Pairs::decode_gives_written))]
pub(crate) fn decode(digits: &[u8], out: &mut [u8])
    requires digits_len { length digits.now ≡ 2 * length out.old }
    requires digits_value { all_hex_digits digits.now ≡ true }
    ensures { out.new ≡ written_bytes digits.now }
{
    let _granted = hex::decode_to_slice(digits, out);
}
