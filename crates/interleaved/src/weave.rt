// The way of the bytes of blocks into the words that hold four blocks bit by bit, and back.
ghost use Rattle.std.specs.Prelude.{◌≡◌, ℕ, ◌<◌, ◌≤◌, true, length, slice_index, slice_set};
ghost use Rattle.binary.specs.Bits.{bit};
ghost use Rattle.interleaved.specs.Moves.{exchange_source, are_apart, Moved, weave_source, unweave_source};
ghost use Rattle.interleaved.specs.Words.{word_at, blocks_with_word, words_of_blocks, blocks_of_words};

// The bytes of a block.
pub(crate) const BLOCK_BYTES: usize = 25;

// Exchanges the bits of x under m with those k places above.
fn exchange(x: u32, k: u32, m: u32) -> u32
    requires { k < 32 }
    ensures { (p : ℕ) → p < 32 → are_apart k m p ≡ true
        → bit result p ≡ bit x (exchange_source k m p) }
{
    let t = (x ^ (x >> k)) & m;
    x ^ t ^ (t << k)
}

// Takes bit z of byte i to place 4 z + i.
fn weave(x: u32) -> u32
    ensures { Moved weave_source x result }
{
    let a = exchange(x, 1, 0x22222222);
    let b = exchange(a, 7, 0x00AA00AA);
    let c = exchange(b, 2, 0x0C0C0C0C);
    exchange(c, 14, 0x0000CCCC)
}

// Takes the bit at place 4 z + i to bit z of byte i: the exchanges of weave, the last of them first.
fn unweave(x: u32) -> u32
    ensures { Moved unweave_source x result }
{
    let a = exchange(x, 14, 0x0000CCCC);
    let b = exchange(a, 2, 0x0C0C0C0C);
    let c = exchange(b, 7, 0x00AA00AA);
    exchange(c, 1, 0x22222222)
}

// The byte at a place, or 0 past the end: one block goes the same way as four, with zeros for the blocks that are not there.
fn byte_at(blocks: &[u8], place: usize) -> u8
    ensures { result ≡ slice_index blocks.now place }
{
    blocks.get(place).copied().unwrap_or(0)
}

// Writes a byte at a place, and nothing past the end, where the blocks that are not there would be.
fn put(blocks: &mut [u8], place: usize, byte: u8)
    ensures { blocks.new ≡ slice_set blocks.old place byte }
{
    if place < blocks.len() {
        blocks[place] = byte;
    }
}

// Byte l of each of four neighbouring blocks in one word. Where there are fewer blocks, the others' bits are 0.
fn gather(blocks: &[u8], l: usize) -> u32
    requires { l < 25 }
    ensures { result ≡ word_at blocks.now l }
{
    weave(u32::from_le_bytes([
        byte_at(blocks, l),
        byte_at(blocks, BLOCK_BYTES + l),
        byte_at(blocks, 2 * BLOCK_BYTES + l),
        byte_at(blocks, 3 * BLOCK_BYTES + l),
    ]))
}

// Byte l of each of the blocks becomes that which a word holds.
fn scatter(word: u32, l: usize, blocks: &mut [u8])
    requires { l < 25 }
    ensures { blocks.new ≡ blocks_with_word word l blocks.old }
{
    let [first, second, third, fourth] = unweave(word).to_le_bytes();
    put(blocks, l, first);
    put(blocks, BLOCK_BYTES + l, second);
    put(blocks, 2 * BLOCK_BYTES + l, third);
    put(blocks, 3 * BLOCK_BYTES + l, fourth);
}

// The words of up to four neighbouring blocks.
pub(crate) fn load(blocks: &[u8]) -> [u32; 25]
    ensures { result ≡ words_of_blocks blocks.now }
{
    let mut words = [0; 25];
    for (l, word) in words.iter_mut().enumerate() {
        *word = gather(blocks, l);
    }
    words
}

// Writes the first of the four blocks that the words hold, as many as there is room for.
pub(crate) fn store(words: &[u32; 25], blocks: &mut [u8])
    requires { length blocks.old ≤ 100 }
    ensures { blocks.new ≡ blocks_of_words (length blocks.old) words.now }
{
    for (l, word) in words.iter().enumerate() {
        scatter(*word, l, blocks);
    }
}
