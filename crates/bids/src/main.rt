// Bids of one pen: their envelopes have one length, pass the check of their tags, and open to their amounts; and what is refused.
#![tactic(auto)]

use arguments::{begin, ended};
use cipher::{KEY_BYTES, check};
use engine::{Plain, Variant};
use envelope::{
    EnvelopeFault, LETTER_BYTES, Pen, SealedBid, amount_in, head_of, parts_of, seal_bid,
};
use fault::Fault;
use refusals::Refusal;
use std::io;
use std::process::ExitCode;

const ENGINE: Plain = Plain {
    variant: Variant::Dumbo,
};

const KEY: [u8; KEY_BYTES] = [7; KEY_BYTES];

const LOT: u32 = 17;

const TERMS: &[u8] = b"bows";

// One byte more than terms may have.
const LONG_TERMS: &[u8] = &[65; 65];

const ENVELOPE_BYTES: usize = 84;

// What `--help` tells.
const ABOUT: &str =
    "Seals bids with the heads of one pen, reads the envelopes again, and shows which bids are refused.";

const HEADLINE: &str = "Bids of one pen for lot 17, sealed above the Dumbo engine
lot, bidder, sequence: what the head of the envelope tells
bytes: the length of the envelope, which is the same for every bid
tag: whether the tag is right
amount: what the letter bids, in cents";

const REFUSED: &str = "What is refused, each for one thing";

fn main(rt: HostRuntime) -> ExitCode {
    match begin(&rt, "bids", ABOUT) {
        Some(end) => end,
        None => ended(&rt, "bids", all_bids(&rt)),
    }
}

// Makes pens, one for terms that are too long, and seals all bids with the heads of the other.
fn all_bids(rt: &HostRuntime) -> anyhow::Result<ExitCode> {
    println!(rt; "{HEADLINE}")?;
    match Pen::new(LOT, TERMS) {
        Err(fault) => tell_refusal(rt, "the pen", fault)?,
        Ok(mut pen) => with_pen(rt, &mut pen)?,
    }
    match Pen::new(LOT, LONG_TERMS) {
        Err(fault) => tell_refusal(rt, "a pen for terms of 65 bytes", fault)?,
        Ok(_pen) => println!(rt; "a pen for terms of 65 bytes: made")?,
    }
    Ok(ExitCode::SUCCESS)
}

// What is sealed for a bidder, and the size of the place lent for its envelope.
#[derive(Clone, Copy)]
struct Bid<'a> {
    // What is particular about it.
    what: &'a str,
    bidder: u32,
    key: &'a [u8],
    amount: u64,
    note: &'a [u8],
    size: usize,
}

// A bid that has nothing particular.
const USUAL: Bid<'static> = Bid {
    what: "a bid",
    bidder: 5,
    key: &KEY,
    amount: 250_000,
    note: b"",
    size: ENVELOPE_BYTES,
};

// Three bids that are granted.
fn granted_bids() -> [Bid<'static>; 3] {
    [
        Bid {
            what: "a bid with a note",
            bidder: 3,
            note: b"pickup on Friday",
            ..USUAL
        },
        Bid {
            what: "the highest amount",
            bidder: 8,
            amount: 999_999_999_999,
            ..USUAL
        },
        Bid {
            what: "an amount of 0",
            bidder: 3,
            amount: 0,
            note: b"withdrawn",
            ..USUAL
        },
    ]
}

// Four bids that are refused.
fn refused_bids() -> [Bid<'static>; 4] {
    [
        Bid {
            what: "a key of 15 bytes",
            key: &KEY[0..KEY_BYTES - 1],
            ..USUAL
        },
        Bid {
            what: "a place of 83 bytes for the envelope",
            size: ENVELOPE_BYTES - 1,
            ..USUAL
        },
        Bid {
            what: "a note of 56 bytes",
            note: &[65; 56],
            ..USUAL
        },
        Bid {
            what: "an amount of 10000000000.00",
            amount: 1_000_000_000_000,
            ..USUAL
        },
    ]
}

fn with_pen(rt: &HostRuntime, pen: &mut Pen) -> io::Result<()> {
    println!(rt; "lot,bidder,sequence,bytes,tag,amount")?;
    for bid in &granted_bids() {
        one_bid(rt, pen, bid)?;
    }
    println!(rt; "\n{REFUSED}")?;
    for bid in &refused_bids() {
        one_bid(rt, pen, bid)?;
    }
    Ok(())
}

// Takes a head, seals a bid with it, and shows the envelope.
fn one_bid(rt: &HostRuntime, pen: &mut Pen, bid: &Bid) -> io::Result<()> {
    let mut envelope = [0u8; ENVELOPE_BYTES];
    // Cut, since one of the bids is refused for a place that is too short.
    let place = &mut envelope[..bid.size.min(ENVELOPE_BYTES)];
    let sealed = match pen.take(bid.bidder) {
        Err(f) => Err(f),
        Ok(head) => seal_bid(&ENGINE, bid.key, head, bid.amount, bid.note, place),
    };
    match sealed {
        Err(fault) => tell_refusal(rt, bid.what, fault),
        Ok(()) => show(rt, bid.key, &envelope),
    }
}

// Tells a refusal, and the fault of the cipher that it may hold.
fn tell_refusal(rt: &HostRuntime, what: &str, fault: EnvelopeFault) -> io::Result<()> {
    print!(rt; "{what}: {}", Refusal(fault))?;
    if let EnvelopeFault::Cipher(held) = fault {
        print!(rt; ", which holds {}", Refusal(held))?;
    }
    println!(rt)
}

// Reads an envelope: its head, its tag and its letter.
fn show(rt: &HostRuntime, key: &[u8], envelope: &[u8]) -> io::Result<()> {
    let Some(bid) = parts_of(envelope).and_then(|parts| parts.sealed_bid(ENGINE.variant)) else {
        return println!(rt; "no envelope");
    };
    let SealedBid { head, letter, tag } = bid;
    let bytes = envelope.len();
    print!(rt; "{},{},{},{bytes},", head.lot, head.bidder, head.sequence)?;
    let mut opened = [0u8; LETTER_BYTES];
    match check(&ENGINE, key, &head_of(head), TERMS, letter, tag) {
        Err(f) => println!(rt; "wrong,{}", f.number()),
        Ok(text) => match text.open(&ENGINE, &mut opened) {
            Err((f, again)) => {
                again.into_sealed();
                println!(rt; "right,refused with {}", f.number())
            }
            Ok(()) => println!(rt; "right,{}", amount_in(&opened)),
        },
    }
}
