// Openings, with as much lent to them as they need or less.
use crate::telling::{Answer, tell};
use engine::Engine;
use envelope::LETTER_BYTES;
use room::{MOST_BIDDERS, MOST_PAGE_BYTES, Room, SheetEntry};
use std::io;
use std::io::Write;

// How much is lent to an opening.
#[derive(Clone, Copy)]
struct Sizes {
    sheet: usize,
    page: usize,
    work: usize,
}

const ENOUGH: Sizes = Sizes {
    sheet: MOST_BIDDERS,
    page: MOST_PAGE_BYTES,
    work: LETTER_BYTES,
};

// Opens the room and prints its page.
fn open<E: Engine + Copy>(
    rt: &HostRuntime,
    room: &Room<E>,
    call: &str,
    lent: Sizes,
) -> anyhow::Result<()> {
    let nothing = SheetEntry {
        bidder: 0,
        amount: 0,
    };
    let mut sheet = vec![in rt.alloc(); nothing; lent.sheet]?;
    let mut page = vec![in rt.alloc(); 0u8; lent.page]?;
    let mut work = vec![in rt.alloc(); 0u8; lent.work]?;
    match room.open(&mut sheet, &mut page, &mut work) {
        Ok(n) => {
            println!(rt; "{call}: this page, with amounts in cents")?;
            io::writer(rt).write_all(&page[..n])?;
        }
        Err(fault) => tell(rt, call, Err(fault))?,
    }
    Ok(())
}

// Opens a room with enough lent.
pub fn print_page<E: Engine + Copy>(rt: &HostRuntime, room: &Room<E>) -> anyhow::Result<()> {
    open(rt, room, "opening", ENOUGH)
}

// Opens a room with nothing lent: what is refused first shows.
pub fn open_with_nothing<E: Engine + Copy>(rt: &HostRuntime, room: &Room<E>) -> anyhow::Result<()> {
    let nothing = Sizes {
        sheet: 0,
        page: 0,
        work: 0,
    };
    open(rt, room, "opening with nothing lent", nothing)
}

// Opens a room with one place or byte too few of each kind, and with one byte too many to work in.
pub fn open_with_others<E: Engine + Copy>(rt: &HostRuntime, room: &Room<E>) -> anyhow::Result<()> {
    let sheet = Sizes {
        sheet: 63,
        ..ENOUGH
    };
    open(rt, room, "opening with 63 sheet places", sheet)?;
    let page = Sizes {
        page: 2257,
        ..ENOUGH
    };
    open(rt, room, "opening with 2257 page bytes", page)?;
    let fewer = Sizes { work: 63, ..ENOUGH };
    open(rt, room, "opening with 63 work bytes", fewer)?;
    let more = Sizes { work: 65, ..ENOUGH };
    open(rt, room, "opening with 65 work bytes", more)
}
