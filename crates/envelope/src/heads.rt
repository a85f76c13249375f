// Heads: the twelve bytes that open an envelope. They name lot, bidder and sequence, and serve as the nonce.
ghost use Rattle.std.specs.Prelude.{◌≡◌};
ghost use Rattle.envelope.specs.Heads.{head as head_for};

use crate::terms::Terms;

/// The bytes of a head.
pub const HEAD_BYTES: usize = 12;

/// What a head says, as three numbers. It is no head: those come from pens alone.
#[derive(Clone, Copy, PartialEq, Eq, Debug)]
pub struct HeadFields {
    pub lot: u32,
    pub bidder: u32,
    pub sequence: u32,
}

/// A head that a pen gave, with the pen's terms. Only pens make heads. It moves, and cannot be let go: sealing a bid uses it up.
pub struct Head {
    pub(crate) fields: HeadFields,
    pub(crate) terms: Terms,
}

/// The bytes of the head that says this: lot, bidder and sequence, four bytes each, the highest first. They are bytes, and no `Head`.
pub fn head_of(fields: HeadFields) -> [u8; HEAD_BYTES]
    ensures { result ≡ head_for fields.lot fields.bidder fields.sequence }
{
    let [l0, l1, l2, l3] = fields.lot.to_be_bytes();
    let [b0, b1, b2, b3] = fields.bidder.to_be_bytes();
    let [s0, s1, s2, s3] = fields.sequence.to_be_bytes();
    [l0, l1, l2, l3, b0, b1, b2, b3, s0, s1, s2, s3]
}
