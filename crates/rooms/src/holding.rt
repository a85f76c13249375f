// The calls of a sale, and what they answer.
use crate::bidding::{bid, key_of, seal_unlawful};
use crate::opening::{open_with_nothing, open_with_others, print_page};
use crate::telling::{Cents, tell_asked, tell_done, tell_lodged};
use anyhow::anyhow;
use engine::Engine;
use envelope::{HeadFields, Pen, envelope_bytes};
use refusals::Refusal;
use room::{RegisterEntry, Room, RoomState};

const LOT: u32 = 17;

const TERMS: &[u8] = b"bows";

// The lot of the room that is made again.
const NEXT_LOT: u32 = 18;

fn entry(bidder: u32) -> RegisterEntry {
    RegisterEntry {
        bidder,
        key: key_of(bidder),
    }
}

// Seals a bid with the pen and lodges it.
fn lodge_bid<E: Engine + Copy>(
    rt: &HostRuntime,
    room: &mut Room<E>,
    pen: &mut Pen,
    bidder: u32,
    amount: u64,
) -> anyhow::Result<()> {
    let mut place = vec![in rt.alloc(); 0u8; envelope_bytes(room.engine.variant())]?;
    let call = format_args!("bidder {bidder} bids {}", Cents(amount));
    match bid(&room.engine, pen, bidder, amount, b"", &mut place) {
        Ok(()) => tell_lodged(rt, call, room.lodge(&place))?,
        Err(fault) => println!(rt; "{call}: {}", Refusal(fault))?,
    }
    Ok(())
}

// Lodgings of every kind, then the closing and openings. Bidder 9 withdraws, and bidder 4 has an unlawful letter.
pub fn hold_sale<E: Engine + Copy>(
    rt: &HostRuntime,
    place: &mut RoomState,
    engine: E,
) -> anyhow::Result<()> {
    println!(rt;
        "\nA sale of lot {LOT} above the {} engine",
        engine.variant()
    )?;
    let register = [entry(3), entry(4), entry(5), entry(8), entry(9)];
    let mut room = Room {
        inner: place,
        engine,
    };
    tell_done(rt, "closing before any room is made", room.close())?;
    let made = room.make(LOT, TERMS, &register);
    tell_done(rt, "making a room for bidders 3, 4, 5, 8 and 9", made)?;
    let Ok(mut pen) = Pen::new(LOT, TERMS) else {
        return Err(anyhow!("no pen is given for the terms of lot {LOT}"));
    };
    lodge_bids(rt, &mut room, &mut pen)?;
    lodge_without_pen(rt, &mut room)?;
    ask_bidders(rt, &mut room)?;
    print_page(rt, &room)?;
    open_with_nothing(rt, &room)?;
    close_and_open(rt, &mut room, &mut pen)
}

// Bids that the pen seals. Bidder 3 bids twice, bidder 9 takes a bid back by an amount of 0, and bidder 7 is not in the register.
fn lodge_bids<E: Engine + Copy>(
    rt: &HostRuntime,
    room: &mut Room<E>,
    pen: &mut Pen,
) -> anyhow::Result<()> {
    let bids = [
        (8, 310_000),
        (3, 200_000),
        (3, 250_000),
        (5, 250_000),
        (9, 90_000),
        (9, 0),
        (7, 1),
    ];
    for (bidder, amount) in bids {
        lodge_bid(rt, room, pen, bidder, amount)?;
    }
    Ok(())
}

// Envelopes that no pen made: an unlawful letter with a right tag, the same again, a changed tag, another lot, and a short envelope.
fn lodge_without_pen<E: Engine + Copy>(rt: &HostRuntime, room: &mut Room<E>) -> anyhow::Result<()> {
    println!(rt; "Envelopes of bidder 4 with a letter that states no bid, sealed without a pen")?;
    let alloc = rt.alloc();
    let head = HeadFields {
        lot: LOT,
        bidder: 4,
        sequence: 20,
    };
    let first = seal_unlawful(alloc, &room.engine, head, TERMS)?;
    tell_lodged(rt, "sequence 20", room.lodge(&first))?;
    tell_lodged(rt, "the same envelope again", room.lodge(&first))?;
    let next = HeadFields {
        sequence: 21,
        ..head
    };
    let mut changed = seal_unlawful(alloc, &room.engine, next, TERMS)?;
    if let Some(last) = changed.last_mut() {
        *last ^= 1;
    }
    tell_lodged(
        rt,
        "sequence 21, a bit of the tag changed",
        room.lodge(&changed),
    )?;
    let elsewhere = HeadFields {
        lot: NEXT_LOT,
        sequence: 22,
        ..head
    };
    let mut other = seal_unlawful(alloc, &room.engine, elsewhere, TERMS)?;
    tell_lodged(rt, "sequence 22 of lot 18", room.lodge(&other))?;
    let _last = other.pop();
    tell_lodged(rt, "the same without its last byte", room.lodge(&other))?;
    Ok(())
}

// What is last accepted of bidders; 6 is not in the register.
fn ask_bidders<E: Engine + Copy>(rt: &HostRuntime, room: &mut Room<E>) -> anyhow::Result<()> {
    for bidder in [4, 5, 6] {
        tell_asked(rt, bidder, room.ask(bidder))?;
    }
    Ok(())
}

// The closing, what is called for after it, and the page twice.
fn close_and_open<E: Engine + Copy>(
    rt: &HostRuntime,
    room: &mut Room<E>,
    pen: &mut Pen,
) -> anyhow::Result<()> {
    tell_done(rt, "closing", room.close())?;
    lodge_bid(rt, room, pen, 8, 999_999)?;
    tell_lodged(rt, "lodging no bytes", room.lodge(b""))?;
    tell_asked(rt, 5, room.ask(5))?;
    open_with_others(rt, room)?;
    print_page(rt, room)?;
    print_page(rt, room)
}

// Makings that are refused, for a register, for terms, and for both: the room of before is still there.
fn make_refused<E: Engine + Copy>(rt: &HostRuntime, room: &mut Room<E>) -> anyhow::Result<()> {
    let none = room.make(NEXT_LOT, b"", &[]);
    tell_done(rt, "making a room for no bidder", none)?;
    let equal = room.make(NEXT_LOT, b"", &[entry(3), entry(3)]);
    tell_done(rt, "making a room for bidders 3 and 3", equal)?;
    let falling = room.make(NEXT_LOT, b"", &[entry(5), entry(3)]);
    tell_done(rt, "making a room for bidders 5 and 3", falling)?;
    let long = room.make(NEXT_LOT, &[0; 65], &[entry(2)]);
    tell_done(rt, "making a room with 65 bytes of terms", long)?;
    let both = room.make(NEXT_LOT, &[0; 65], &[]);
    tell_done(
        rt,
        "making a room with 65 bytes of terms, for no bidder",
        both,
    )?;
    tell_asked(rt, 4, room.ask(4))
}

// A room made anew over an old one: nothing of it is left.
pub fn hold_again<E: Engine + Copy>(
    rt: &HostRuntime,
    place: &mut RoomState,
    engine: E,
) -> anyhow::Result<()> {
    println!(rt;
        "\nA sale of lot {NEXT_LOT} above the {} engine, in the place of the last room",
        engine.variant()
    )?;
    let mut room = Room {
        inner: place,
        engine,
    };
    make_refused(rt, &mut room)?;
    let made = room.make(NEXT_LOT, b"", &[entry(2), entry(3)]);
    tell_done(rt, "making a room for bidders 2 and 3", made)?;
    tell_asked(rt, 3, room.ask(3))?;
    let Ok(mut pen) = Pen::new(NEXT_LOT, b"") else {
        return Err(anyhow!("no pen is given for the terms of lot {NEXT_LOT}"));
    };
    lodge_bid(rt, &mut room, &mut pen, 2, 999_999_999_999)?;
    tell_done(rt, "closing", room.close())?;
    tell_done(rt, "closing again", room.close())?;
    print_page(rt, &room)
}
