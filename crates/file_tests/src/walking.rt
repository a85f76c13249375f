// A walk over a sale file by its reader, from outside the reader's crate.
ghost use Rattle.std.specs.Prelude.{◌≡◌};
ghost use Rattle.file.specs.Contents.{items_in};
ghost use Rattle.file_tests.specs.Walking.{end_of};

use file::{FileFault, Reader};

/// Reads a file line by line, to its end or to the first line that is refused.
///
/// # Errors
/// The fault of the first line that is refused.
pub fn read_through(text: &[u8]) -> Result<(), FileFault>
    ensures { result ≡ end_of (items_in text.now) }
{
    let mut reader = Reader::new(text);
    while let Some(said) = reader.next() {
        said?;
    }
    Ok(())
}
