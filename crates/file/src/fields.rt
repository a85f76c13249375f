// Bytes split at a byte: a line at its comma, a file at the end of a line.
ghost use Rattle.std.specs.Prelude.{◌≡◌, ◌==◌, position};
ghost use Rattle.file.specs.Fields.{IsSplit};

// The place of the first `b`.
fn find(bytes: &[u8], b: u8) -> Option<usize>
    ensures { result ≡ position (λ c. c == b) bytes.now }
{
    bytes.iter().position(|c| *c == b)
}

// What stands before the first `b`, and what behind it.
#[tactic(auto, unfolding(crate::specs::Fields::place_of))]
pub(crate) fn split_once(bytes: &[u8], b: u8) -> Option<(&[u8], &[u8])>
    ensures { IsSplit b bytes.now result }
{
    let place = find(bytes, b)?;
    Some((&bytes[..place], &bytes[place + 1..]))
}
