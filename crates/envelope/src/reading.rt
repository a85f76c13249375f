// Reading of envelopes: the head, named byte by byte, and behind it the sealed letter and the tag.
ghost use Rattle.std.specs.Prelude.{◌≡◌};
ghost use Rattle.envelope.specs.Parts.{parts_answer, parts_seen, sealed_bid_answer, sealed_bid_seen};

use crate::heads::HeadFields;
use crate::letters::LETTER_BYTES;
use cipher::tag_bytes;
use engine::Variant;

/// What the head of an envelope says, and the rest of the envelope: all bytes after the head.
#[derive(Clone, Copy)]
pub struct Parts<'a> {
    pub head: HeadFields,
    pub rest: &'a [u8],
}

/// What a whole envelope holds: what its head says, the sealed letter and the tag. The tag has the bytes of the variant that it was read for.
#[derive(Clone, Copy)]
pub struct SealedBid<'a> {
    pub head: HeadFields,
    pub letter: &'a [u8; LETTER_BYTES],
    pub tag: &'a [u8],
}

/// The parts of an envelope: none where it is too short for a head. Each number of the head has four bytes, the highest first.
pub fn parts_of(envelope: &[u8]) -> Option<Parts<'_>>
    ensures { parts_seen result ≡ parts_answer envelope.now }
{
    let [l0, l1, l2, l3, b0, b1, b2, b3, s0, s1, s2, s3, rest @ ..] = envelope else {
        return None;
    };
    let head = HeadFields {
        lot: u32::from_be_bytes([*l0, *l1, *l2, *l3]),
        bidder: u32::from_be_bytes([*b0, *b1, *b2, *b3]),
        sequence: u32::from_be_bytes([*s0, *s1, *s2, *s3]),
    };
    Some(Parts { head, rest })
}

impl<'a> Parts<'a> {
    /// The sealed letter and the tag that make up the rest, with what the head says: none where the rest has another length than in the
    /// variant's envelopes.
    pub fn sealed_bid(self, variant: Variant) -> Option<SealedBid<'a>>
        ensures { let p = self.entry in
            sealed_bid_seen result ≡ sealed_bid_answer variant p.head p.rest.now }
    {
        let Parts { head, rest } = self;
        match rest.split_first_chunk() {
            Some((letter, tag)) if tag.len() == tag_bytes(variant) => {
                Some(SealedBid { head, letter, tag })
            }
            _ => None,
        }
    }
}
