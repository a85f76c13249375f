// Blocks in words.

// Four words, or four for each of some blocks. Between rounds they are the quarters of a block, the first in `a`; once its bits
// are gathered, place k of the four words has half byte k of the block, the lowest bit in `a`.
// They have names, since rounds and rows speak of them one by one.
#[derive(Clone, Copy)]
pub(crate) struct Planes<W> {
    pub(crate) a: W,
    pub(crate) b: W,
    pub(crate) c: W,
    pub(crate) d: W,
}
