// Reading into a buffer and writing a text to their ends, over any reader and writer. The methods of the library say little of what became of the
// reader or the writer where they fail, and of how much is read where the reader does not say what it has left.
ghost use Rattle.std.specs.Prelude.{◌≡◌, ◌+◌, ◌≤◌, take, vec_len, IfSome, IfOk};
ghost use Rattle.file.specs.Lines.{most_bytes};
ghost use Rattle.file.specs.Streams.{Fills, Writes};

use crate::reader::MOST_FILE_BYTES;
use std::alloc::Global;
use std::io;
use std::io::{ErrorKind, Read, Write};

// The failure after 2^64 - 1 tries: nothing says how often a signal interrupts one, and a function ends.
fn gave_up() -> io::Error {
    io::Error::new(ErrorKind::TimedOut, "gave up after 2^64 - 1 tries")
}

// Reads into a buffer until it is full or the reader is at its end. Answers how many bytes came.
fn fill<R: Read>(reader: &mut R, buffer: &mut [u8]) -> io::Result<usize>
    ensures { IfOk result (Fills (R.remaining reader.old) (R.remaining reader.new) buffer.new) }
{
    let mut at = 0;
    for _ in 0..u64::MAX {
        if at >= buffer.len() {
            return Ok(at);
        }
        match reader.read(&mut buffer[at..]) {
            Ok(0) => return Ok(at),
            Ok(n) => at += n,
            Err(e) => {
                if e.kind() != ErrorKind::Interrupted {
                    return Err(e);
                }
            }
        }
    }
    Err(gave_up())
}

// Writes a text and flushes it.
pub(crate) fn write_whole<W: Write>(writer: &mut W, text: &[u8]) -> io::Result<()>
    ensures { Writes (W.contents writer.old) (W.contents writer.new) text.now result }
{
    let mut rest = text;
    for _ in 0..u64::MAX {
        if rest.is_empty() {
            return writer.flush();
        }
        match writer.write(rest) {
            Ok(0) => return Err(io::Error::from(ErrorKind::WriteZero)),
            Ok(n) => rest = &rest[n..],
            Err(e) => {
                if e.kind() != ErrorKind::Interrupted {
                    return Err(e);
                }
            }
        }
    }
    Err(gave_up())
}

/// Reads a sale file as far as it can matter: at most one byte more than it may have, since a longer file is refused alike, whatever follows.
///
/// # Errors
/// The reader's, or one of kind `OutOfMemory` where memory does not suffice.
pub fn read_file<R: Read + Drop>(heap: Global, mut reader: R) -> io::Result<Vec<u8>>
    ensures few { IfOk result (λ text. vec_len text ≤ most_bytes + 1) }
    ensures first { IfOk result (λ text. IfSome (R.remaining reader)
        (λ bytes. text.items ≡ take (most_bytes + 1) bytes)) }
{
    let mut text = vec![in heap; 0; MOST_FILE_BYTES + 1]?;
    let n = fill(&mut reader, &mut text)?;
    text.truncate(n);
    Ok(text)
}
