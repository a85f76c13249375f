// The sale of a file, held in a room from its making to its page.
ghost use Rattle.std.specs.Prelude.{◌≡◌, true, [], ◌++◌, Ok, IfOk, OnOk};
ghost use Rattle.file.specs.Contents.{items_in, envelopes_in, sale_in, sale_of};
ghost use Rattle.file.specs.Form.{is_envelope, Items, item};
ghost use Rattle.file.specs.Hexadecimal.{written_bytes};
ghost use Rattle.file.specs.Reader.{item_of};
ghost use Rattle.file.specs.steps.Line.{WellFormed};
ghost use Rattle.file.specs.steps.Sale.{IsUnbroken, LodgesOne, GoesThrough, OrLacksMemory, Reports, HoldsFile};
ghost use Rattle.file.specs.declared.faults.FileFault.TheVariants.{Room as by_room};
ghost use Rattle.file.specs.declared.sale.Stopped.TheVariants.{Refused as as_refused, Memory as for_memory};
ghost use Rattle.room.specs.Calls.{is_closed, page_of_room};
ghost use Rattle.room.specs.Rooms.{contents_of};

use crate::contents::{Gathered, gather};
use crate::faults::FileFault;
use crate::hexadecimal::decode;
use crate::line::Line;
use crate::reader::Reader;
use crate::report::put_values;
use cipher::KEY_BYTES;
use circuit::Circuit;
use engine::{Engine, Variant};
use envelope::LETTER_BYTES;
use fault::Fault;
use interleaved::Interleaved;
use room::{MOST_BIDDERS, MOST_PAGE_BYTES, RegisterEntry, Room, RoomFault, RoomState, SheetEntry};
use std::alloc::{AllocError, Global};

// Why a sale is not held to its end. It has a `From` for each way, so that `?` takes all three.
#[derive(Clone, Copy)]
pub(crate) enum Stopped {
    // The file is refused.
    Refused(FileFault),
    // There is not enough memory.
    Memory(AllocError),
}

impl From<FileFault> for Stopped {
    ghost from_gives = { λ f r. r ≡ as_refused f };

    fn from(f: FileFault) -> Stopped {
        Stopped::Refused(f)
    }
}

impl From<RoomFault> for Stopped {
    ghost from_gives = { λ f r. r ≡ as_refused (by_room f) };

    fn from(f: RoomFault) -> Stopped {
        Stopped::Refused(FileFault::from(f))
    }
}

impl From<AllocError> for Stopped {
    ghost from_gives = { λ e r. r ≡ for_memory e };

    fn from(e: AllocError) -> Stopped {
        Stopped::Memory(e)
    }
}

// The bytes that the digits of an envelope write.
fn decode_digits(heap: Global, digits: &[u8]) -> Result<Vec<u8>, AllocError>
    requires { is_envelope digits.now ≡ true }
    ensures { IfOk result (λ v. v.items ≡ written_bytes digits.now) }
{
    let mut bytes = vec![in heap; 0; digits.len() / 2]?;
    decode(digits, &mut bytes);
    Ok(bytes)
}

// Lodges the envelope of a line, and adds the line with the answer: by the rules of the report 0 where it is accepted, else the number of the
// refusal. The room and the report go side by side, since a struct that lends a room over any engine is not covered by the check.
fn lodge_line<E: Engine + Drop>(
    room: &mut Room<E>,
    line: u32,
    digits: &[u8],
    out: &mut Vec<u8>,
) -> Result<(), AllocError>
    requires { is_envelope digits.now ≡ true }
    ensures { OnOk result (LodgesOne (E.kind room.old.engine) out.old.items room.old.inner.now
        (record { at = line; envelope = written_bytes digits.now })
        out.new.items room.new.inner.now
        × (room.new.engine ≡ room.old.engine)
        × (room.new.inner.ghost_name ≡ room.old.inner.ghost_name)) }
{
    let envelope = decode_digits(*out.allocator(), digits)?;
    let refusal = room.lodge(&envelope).err();
    put_values(out, line, refusal.map_or(0, |f| f.number() as u32))
}

// Lodges what a line says, where it is an envelope.
fn lodge_said<E: Engine + Drop>(
    room: &mut Room<E>,
    said: Line,
    out: &mut Vec<u8>,
) -> Result<(), AllocError>
    requires { WellFormed (item_of said) }
    ensures { OnOk result (((is : Items) → GoesThrough (E.kind room.old.engine)
        out.old.items room.old.inner.now (envelopes_in (item (item_of said.entry) is))
        out.new.items room.new.inner.now (envelopes_in is))
        × (room.new.engine ≡ room.old.engine)
        × (room.new.inner.ghost_name ≡ room.old.inner.ghost_name)) }
{
    if let Line::Envelope { line, digits } = said {
        lodge_line(room, line, digits, out)?;
    }
    Ok(())
}

// Lodges all envelopes of a file that is accepted, in their order, and adds the line of each with its answer.
fn lodge_all<E: Engine + Drop>(
    text: &[u8],
    room: &mut Room<E>,
    out: &mut Vec<u8>,
) -> Result<(), Stopped>
    requires { IsUnbroken (items_in text.now) }
    ensures { OrLacksMemory result (λ _. GoesThrough (E.kind room.old.engine)
        out.old.items room.old.inner.now (envelopes_in (items_in text.now))
        out.new.items room.new.inner.now []
        × (room.new.engine ≡ room.old.engine)
        × (room.new.inner.ghost_name ≡ room.old.inner.ghost_name)) }
{
    let mut reader = Reader::new(text);
    // No `for`, which needs a bound on the calls: a reader that refuses a line refuses it again at each call.
    while let Some(line) = reader.read()? {
        lodge_said(room, line, out)?;
    }
    Ok(())
}

// Opens a closed room and adds its page.
fn add_page<E: Engine + Drop>(room: &Room<E>, out: &mut Vec<u8>) -> Result<(), Stopped>
    requires { is_closed room.now.inner.now.phase ≡ true }
    ensures { OrLacksMemory result (λ _. out.new.items
        ≡ out.old.items ++ page_of_room (contents_of (E.kind room.now.engine) room.now.inner.now)) }
{
    let mut sheet = [SheetEntry {
        bidder: 0,
        amount: 0,
    }; MOST_BIDDERS];
    let mut page = [0; MOST_PAGE_BYTES];
    let mut work = [0; LETTER_BYTES];
    let n = room.open(&mut sheet, &mut page, &mut work)?;
    out.extend_from_slice(&page[..n])?;
    Ok(())
}

// Holds the sale of a file that was gathered, by an engine of its variant: makes a room, lodges the envelopes in their order, closes and opens it.
// Answers what is printed. The text is read a second time for the envelopes: none is lodged before the last line was judged, since a refused file
// prints the refusal alone, and so neither they nor their answers have to be kept until then.
fn hold_by<E: Engine + Drop>(
    heap: Global,
    text: &[u8],
    engine: E,
    sale: &Gathered,
    register: &[RegisterEntry],
) -> Result<Vec<u8>, Stopped>
    requires variant { E.kind engine ≡ sale.now.variant }
    requires accepted { sale_in text.now ≡ Ok (sale_of sale.now register.now) }
    ensures { OrLacksMemory result
        (λ v. Reports
        (record {
          sale = sale_of sale.now register.now;
          envelopes = envelopes_in (items_in text.now);
        }) v.items) }
{
    let mut place = RoomState::fresh();
    let mut room = Room {
        inner: &mut place,
        engine,
    };
    room.make(sale.lot, sale.terms, register)?;
    let mut out = Vec::new(heap);
    out.extend_from_slice(b"line,answer\n")?;
    lodge_all(text, &mut room, &mut out)?;
    room.close()?;
    out.extend_from_slice(b"\n")?;
    add_page(&room, &mut out)?;
    Ok(out)
}

// Holds the sale of a file by the engine of its variant, and answers what is printed; or refuses the file.
pub(crate) fn hold(heap: Global, text: &[u8]) -> Result<Vec<u8>, Stopped>
    ensures { HoldsFile text.now result }
{
    let nobody = RegisterEntry {
        bidder: 0,
        key: [0; KEY_BYTES],
    };
    let mut places = [nobody; MOST_BIDDERS];
    let sale = gather(text, &mut places)?;
    let register = &places[..sale.count];
    match sale.variant {
        Variant::Dumbo => hold_by(heap, text, Circuit::Dumbo, &sale, register),
        Variant::Jumbo => hold_by(heap, text, Circuit::Jumbo, &sale, register),
        Variant::Delirium => hold_by(heap, text, Interleaved, &sale, register),
    }
}
