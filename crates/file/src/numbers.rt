// Numbers as a file writes them. `parse` of the library takes a sign and leading zeros too, so the digits are read here.
ghost use Rattle.std.specs.Prelude.{◌≡◌};
ghost use Rattle.file.specs.Numbers.{number_of, value_of};

// The number that digits write, where they write one.
#[tactic(auto, unfolding(crate::specs::Numbers::number_of))]
pub(crate) fn number(digits: &[u8]) -> Option<u32>
    ensures { result ≡ number_of digits.now }
{
    match digits {
        [] | [b'0', _, ..] => None,
        _ => value(digits),
    }
}

// The number that digits write, leading zeros or not, where all bytes are digits and it is not too large.
fn value(digits: &[u8]) -> Option<u32>
    ensures { result ≡ value_of digits.now }
{
    let mut n: u32 = 0;
    for c in digits {
        if !c.is_ascii_digit() {
            return None;
        }
        n = n.checked_mul(10)?.checked_add((*c - b'0') as u32)?;
    }
    Some(n)
}
