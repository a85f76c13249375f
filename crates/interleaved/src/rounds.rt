// The rounds of Keccak-f[200] on 25 words that hold four blocks bit by bit. The layers are written out word by word, since loops
// over the words would keep them in memory and turn them by amounts read from a table: that takes several times as long.
ghost use Rattle.std.specs.Prelude.{◌≡◌};
ghost use Rattle.interleaved.specs.Words.{words, w_theta, w_rho, w_pi, w_chi, w_layers, w_add, w_after};

// Adds to each word the sums of two neighbouring columns.
fn theta(s: &[u32; 25]) -> [u32; 25]
    ensures { result ≡ words (w_theta s.now) }
{
    let c0 = s[0] ^ s[5] ^ s[10] ^ s[15] ^ s[20];
    let c1 = s[1] ^ s[6] ^ s[11] ^ s[16] ^ s[21];
    let c2 = s[2] ^ s[7] ^ s[12] ^ s[17] ^ s[22];
    let c3 = s[3] ^ s[8] ^ s[13] ^ s[18] ^ s[23];
    let c4 = s[4] ^ s[9] ^ s[14] ^ s[19] ^ s[24];
    let d0 = c4 ^ c1.rotate_left(4);
    let d1 = c0 ^ c2.rotate_left(4);
    let d2 = c1 ^ c3.rotate_left(4);
    let d3 = c2 ^ c4.rotate_left(4);
    let d4 = c3 ^ c0.rotate_left(4);
    [
        s[0] ^ d0,
        s[1] ^ d1,
        s[2] ^ d2,
        s[3] ^ d3,
        s[4] ^ d4,
        s[5] ^ d0,
        s[6] ^ d1,
        s[7] ^ d2,
        s[8] ^ d3,
        s[9] ^ d4,
        s[10] ^ d0,
        s[11] ^ d1,
        s[12] ^ d2,
        s[13] ^ d3,
        s[14] ^ d4,
        s[15] ^ d0,
        s[16] ^ d1,
        s[17] ^ d2,
        s[18] ^ d3,
        s[19] ^ d4,
        s[20] ^ d0,
        s[21] ^ d1,
        s[22] ^ d2,
        s[23] ^ d3,
        s[24] ^ d4,
    ]
}

// Turns each word by four places for each place of its offset, and moves the words. Three of the words have offset 0.
fn rho_pi(s: &[u32; 25]) -> [u32; 25]
    ensures { result ≡ words (w_pi (words (w_rho s.now))) }
{
    [
        s[0],
        s[6].rotate_left(16),
        s[12].rotate_left(12),
        s[18].rotate_left(20),
        s[24].rotate_left(24),
        s[3].rotate_left(16),
        s[9].rotate_left(16),
        s[10].rotate_left(12),
        s[16].rotate_left(20),
        s[22].rotate_left(20),
        s[1].rotate_left(4),
        s[7].rotate_left(24),
        s[13].rotate_left(4),
        s[19],
        s[20].rotate_left(8),
        s[4].rotate_left(12),
        s[5].rotate_left(16),
        s[11].rotate_left(8),
        s[17].rotate_left(28),
        s[23],
        s[2].rotate_left(24),
        s[8].rotate_left(28),
        s[14].rotate_left(28),
        s[15].rotate_left(4),
        s[21].rotate_left(8),
    ]
}

// Adds to each word of a row the product of the next one's complement and the one after that.
fn chi(s: &[u32; 25]) -> [u32; 25]
    ensures { result ≡ words (w_chi s.now) }
{
    [
        s[0] ^ (!s[1] & s[2]),
        s[1] ^ (!s[2] & s[3]),
        s[2] ^ (!s[3] & s[4]),
        s[3] ^ (!s[4] & s[0]),
        s[4] ^ (!s[0] & s[1]),
        s[5] ^ (!s[6] & s[7]),
        s[6] ^ (!s[7] & s[8]),
        s[7] ^ (!s[8] & s[9]),
        s[8] ^ (!s[9] & s[5]),
        s[9] ^ (!s[5] & s[6]),
        s[10] ^ (!s[11] & s[12]),
        s[11] ^ (!s[12] & s[13]),
        s[12] ^ (!s[13] & s[14]),
        s[13] ^ (!s[14] & s[10]),
        s[14] ^ (!s[10] & s[11]),
        s[15] ^ (!s[16] & s[17]),
        s[16] ^ (!s[17] & s[18]),
        s[17] ^ (!s[18] & s[19]),
        s[18] ^ (!s[19] & s[15]),
        s[19] ^ (!s[15] & s[16]),
        s[20] ^ (!s[21] & s[22]),
        s[21] ^ (!s[22] & s[23]),
        s[22] ^ (!s[23] & s[24]),
        s[23] ^ (!s[24] & s[20]),
        s[24] ^ (!s[20] & s[21]),
    ]
}

// The constants of the rounds by pairs, each with every bit four times over, once for each block.
const CONSTANTS: [[u32; 2]; 9] = [
    [0x0000000F, 0xF00000F0],
    [0xF000F0F0, 0x00000000],
    [0xF000F0FF, 0x0000000F],
    [0xF000000F, 0x0000F00F],
    [0xF000F0F0, 0xF000F000],
    [0x0000F00F, 0x0000F0F0],
    [0xF000F0FF, 0xF000F0FF],
    [0xF000F00F, 0x000000FF],
    [0x000000F0, 0xF0000000],
];

// The words after a round with this constant.
fn round(s: &[u32; 25], constant: u32) -> [u32; 25]
    ensures { result ≡ w_add constant (w_layers s.now) }
{
    let mut t = chi(&rho_pi(&theta(s)));
    t[0] ^= constant;
    t
}

// The words after all rounds. With two rounds to a turn the words go from one place to another and back, and are not copied.
pub(crate) fn all_rounds(first: [u32; 25]) -> [u32; 25]
    ensures { result ≡ w_after 18 first }
{
    let mut s = first;
    for &[even, odd] in &CONSTANTS {
        s = round(&round(&s, even), odd);
    }
    s
}
