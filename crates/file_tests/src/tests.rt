// Small files, each with what is printed of it.
use crate::checking::{NOBODY, accepts, is_accepted, is_refused, refuses};
use crate::halting::Halting;
use crate::making::{BIDDER_3, begun, bidders_then, file_of, with_commas};
use crate::walking::read_through;
use cipher::CipherFault;
use engine::Variant;
use fault::{Fault, Layer, Place};
use file::{FileFault, Line, Reader, gather, hold_sale};
use std::io;
use std::test::Fail;

#[test]
fn a_file_is_accepted(rt: HostRuntime) -> Result<(), Fail> {
    accepts(
        &rt,
        &[
            (
                "17,dumbo,bows",
                "3,000102030405060708090a0b0c0d0e0f\n8,101112131415161718191a1b1c1d1e1f\n",
                "00\n",
                "line,answer\n9,8\n\nlot,bidder,amount\n",
            ),
            (
                "0,jumbo,",
                "0,000102030405060708090a0b0c0d0e0f\n",
                "",
                "line,answer\n\nlot,bidder,amount\n",
            ),
            (
                "4294967295,delirium,a,b,,c\r",
                "4294967295,ffffffffffffffffffffffffffffffff\n1,000102030405060708090a0b0c0d0e0f\n",
                "00\nabcdef0123456789\n",
                "line,answer\n9,8\n10,8\n\nlot,bidder,amount\n",
            ),
            (
                "1,dumbo,,",
                "9,000102030405060708090a0b0c0d0e0f\n",
                "",
                "line,answer\n\nlot,bidder,amount\n",
            ),
        ],
    )
}

// In each variant a genuine envelope, the same again, and that for another lot: the amounts are 250,000 cents, the limit, and one cent.
#[test]
fn a_standing_amount_is_on_the_page(rt: HostRuntime) -> Result<(), Fail> {
    accepts(
        &rt,
        &[
            (
                "17,dumbo,bows",
                BIDDER_3,
                "0000001100000003000000011e5e336d6208658d1232ad445787804e4592808a040730184ff08b8c5642104bee455e93471c\
                 c4e6498ab8161cbecfa758b8b3b2914d313eabbe700e0207d0410b740ec7898feaab\n\
                 0000001100000003000000011e5e336d6208658d1232ad445787804e4592808a040730184ff08b8c5642104bee455e93471c\
                 c4e6498ab8161cbecfa758b8b3b2914d313eabbe700e0207d0410b740ec7898feaab\n\
                 0100001100000003000000011e5e336d6208658d1232ad445787804e4592808a040730184ff08b8c5642104bee455e93471c\
                 c4e6498ab8161cbecfa758b8b3b2914d313eabbe700e0207d0410b740ec7898feaab\n",
                "line,answer\n8,0\n9,11\n10,9\n\nlot,bidder,amount\n17,3,250000\n",
            ),
            (
                "17,jumbo,bows",
                BIDDER_3,
                "000000110000000300000001726f8eec159620454b2ee49b8153c96a0a4144972d1d689a51f35e8363942a9d4f47d5adeb85\
                 8b8da913481aa1bd1f53b237f29cb2ebb4ac721c29ea225bf12b97dd1d9886254a0b\n\
                 000000110000000300000001726f8eec159620454b2ee49b8153c96a0a4144972d1d689a51f35e8363942a9d4f47d5adeb85\
                 8b8da913481aa1bd1f53b237f29cb2ebb4ac721c29ea225bf12b97dd1d9886254a0b\n\
                 010000110000000300000001726f8eec159620454b2ee49b8153c96a0a4144972d1d689a51f35e8363942a9d4f47d5adeb85\
                 8b8da913481aa1bd1f53b237f29cb2ebb4ac721c29ea225bf12b97dd1d9886254a0b\n",
                "line,answer\n8,0\n9,11\n10,9\n\nlot,bidder,amount\n17,3,999999999999\n",
            ),
            (
                "17,delirium,bows",
                BIDDER_3,
                "0000001100000003000000018d1984eca91a80eb63f6c3d417b1fa4bc21f91e0d0c4f9e830ca99dd3bffce00c060244fd129\
                 6db0acf80af2b0af33687988d2325d96091e43b4fbb3c90cd50b3b01761c546357fdba4de01803843f6f\n\
                 0000001100000003000000018d1984eca91a80eb63f6c3d417b1fa4bc21f91e0d0c4f9e830ca99dd3bffce00c060244fd129\
                 6db0acf80af2b0af33687988d2325d96091e43b4fbb3c90cd50b3b01761c546357fdba4de01803843f6f\n\
                 0100001100000003000000018d1984eca91a80eb63f6c3d417b1fa4bc21f91e0d0c4f9e830ca99dd3bffce00c060244fd129\
                 6db0acf80af2b0af33687988d2325d96091e43b4fbb3c90cd50b3b01761c546357fdba4de01803843f6f\n",
                "line,answer\n8,0\n9,11\n10,9\n\nlot,bidder,amount\n17,3,1\n",
            ),
        ],
    )
}

#[test]
fn the_form_of_the_lot(rt: HostRuntime) -> Result<(), Fail> {
    refuses(
        &rt,
        &[
            (0, "", 22, 1),
            (0, "\n", 22, 1),
            (0, "lot,variant,terms", 22, 1),
            (1, "", 22, 2),
            (0, "lot,variant\n17,dumbo,bows\n", 22, 1),
            (1, "17,dumbo", 22, 2),
            (1, "17,dumbo\n", 22, 2),
            (1, "17\n", 22, 2),
            (1, ",dumbo,\n", 22, 2),
            (1, "00,dumbo,\n", 22, 2),
            (1, "017,dumbo,\n", 22, 2),
            (1, "+1,dumbo,\n", 22, 2),
            (1, "1x,dumbo,\n", 22, 2),
            (1, "4294967296,dumbo,\n", 22, 2),
            (1, "99999999999999999999999,dumbo,\n", 22, 2),
            (1, "17,Dumbo,\n", 22, 2),
            (1, "17,,\n", 22, 2),
            (1, "17, dumbo,\n", 22, 2),
            (1, "17,dumbo,bows", 22, 2),
            (0, "\nlot,variant,terms\n17,dumbo,bows\n", 22, 1),
            (1, "17,dumbo,bows\n \n", 22, 3),
            (1, "17,dumbo,bows\n", 22, 3),
            (1, "17,dumbo,bows\nbidder,key\n", 22, 3),
            (0, "lot,variant,terms\r\n17,dumbo,bows\n", 22, 1),
        ],
    )
}

#[test]
fn the_form_of_the_bidders(rt: HostRuntime) -> Result<(), Fail> {
    refuses(
        &rt,
        &[
            (3, "", 22, 4),
            (3, "bidder,keys\n", 22, 4),
            (4, "", 22, 5),
            (4, "\n", 22, 5),
            (4, "3\n", 22, 5),
            (4, "03,000102030405060708090a0b0c0d0e0f\n", 22, 5),
            (4, "4294967296,000102030405060708090a0b0c0d0e0f\n", 22, 5),
            (4, "3,000102030405060708090a0b0c0d0e0f,\n", 22, 5),
            (4, "3,\n", 22, 5),
            (4, "3,000102030405060708090A0B0C0D0E0F\n", 22, 5),
            (4, "3,000102030405060708090a0b0c0d0e0\n", 22, 5),
            (4, "3,000102030405060708090a0b0c0d0e0f0\n", 22, 5),
            (4, "3,000102030405060708090a0b0c0d0e0g\n", 22, 5),
            (4, "3,000102030405060708090a0b0c0d0e0f", 22, 5),
            (5, "", 22, 6),
            (6, "4,000102030405060708090a0b0c0d0e0f\n", 22, 7),
            (5, "3,ffffffffffffffffffffffffffffffff\n", 17, 6),
            (5, "3,f\n", 22, 6),
            (5, "3,000102030405060708090a0b0c0d0e0f", 22, 6),
            (
                5,
                "4,000102030405060708090a0b0c0d0e0f\n3,000102030405060708090a0b0c0d0e0f\n",
                17,
                7,
            ),
        ],
    )
}

#[test]
fn the_form_of_the_envelopes(rt: HostRuntime) -> Result<(), Fail> {
    refuses(
        &rt,
        &[
            (6, "", 22, 7),
            (6, "envelopes\n", 22, 7),
            (6, "envelope", 22, 7),
            (7, "0\n", 22, 8),
            (7, "0g\n", 22, 8),
            (7, "00\r\n", 22, 8),
            (7, "00\n\n", 22, 9),
            (7, "00\n000\n", 22, 9),
            (7, "00\nAA\n", 22, 9),
            (7, "00\n00", 22, 9),
        ],
    )
}

#[test]
fn a_fault_tells_number_layer_and_line(rt: HostRuntime) {
    let f = FileFault::TermsLength { line: 2 };
    assert_eq!(rt; f.number(), 15);
    assert_eq!(rt; f.layer(), Layer::File);
    assert_eq!(rt; f.place(), Place::Line(2));
    assert_eq!(rt; FileFault::TooLong.number(), 23);
    assert_eq!(rt; FileFault::TooLong.place(), Place::Line(0));
    let held = FileFault::from(CipherFault::KeyLength);
    assert_eq!(rt; held.number(), 1);
    assert_eq!(rt; held.layer(), Layer::File);
    assert_eq!(rt; held.place(), Place::Line(0));
}

// Of a file that has no end 32,769 bytes are read.
#[test]
fn an_endless_file_is_too_long(rt: HostRuntime) -> Result<(), Fail> {
    let mut printed = Vec::new(rt.alloc());
    let status = hold_sale(rt.alloc(), io::repeat(b'x'), &mut printed)?;
    assert_eq!(rt; status, 1);
    assert_eq!(rt; printed.as_slice(), "refusal,line\n23,0\n".as_bytes());
    Ok(())
}

#[test]
fn a_sale_is_held_where_reading_is_interrupted(rt: HostRuntime) -> Result<(), Fail> {
    let file = file_of(rt.alloc(), "17,dumbo,bows", BIDDER_3, "00\n")?;
    let reader = Halting::new(file.as_bytes());
    let mut printed = Vec::new(rt.alloc());
    let status = hold_sale(rt.alloc(), reader, &mut printed)?;
    assert_eq!(rt; status, 0);
    assert_eq!(rt;
        printed.as_slice(),
        "line,answer\n8,8\n\nlot,bidder,amount\n".as_bytes()
    );
    Ok(())
}

// In a line the form goes before the limit of the terms, and a line before those behind it.
#[test]
fn terms_have_at_most_64_bytes(rt: HostRuntime) -> Result<(), Fail> {
    let terms = with_commas(rt.alloc(), "1,jumbo,", 64)?;
    let fits = file_of(rt.alloc(), &terms, BIDDER_3, "")?;
    is_accepted(&rt, fits.as_bytes(), "line,answer\n\nlot,bidder,amount\n")?;
    for (values, number) in [("1,jumbo,", 15), ("01,jumbo,", 22), ("1,rambo,", 22)] {
        let terms = with_commas(rt.alloc(), values, 65)?;
        let long = file_of(rt.alloc(), &terms, BIDDER_3, "")?;
        is_refused(&rt, long.as_bytes(), number, 2)?;
    }
    for (behind, number) in [("\nno empty line\n", 15), ("", 22)] {
        let mut terms = with_commas(rt.alloc(), "1,jumbo,", 65)?;
        terms.push_str(behind)?;
        let long = begun(rt.alloc(), 1, &terms)?;
        is_refused(&rt, long.as_bytes(), number, 2)?;
    }
    Ok(())
}

// In a line the form goes before the list, and there an equal bidder before the 65th.
#[test]
fn at_most_64_bidders(rt: HostRuntime) -> Result<(), Fail> {
    let bidders = bidders_then(rt.alloc(), 64, "")?;
    let fits = file_of(rt.alloc(), "1,jumbo,", &bidders, "")?;
    is_accepted(&rt, fits.as_bytes(), "line,answer\n\nlot,bidder,amount\n")?;
    for (next, number) in [
        ("64,000102030405060708090a0b0c0d0e0f\n\nenvelope\n", 18),
        ("63,000102030405060708090a0b0c0d0e0f\n\nenvelope\n", 17),
        ("064,000102030405060708090a0b0c0d0e0f\n", 22),
        ("64,000102030405060708090a0b0c0d0e0f", 22),
    ] {
        let bidders = bidders_then(rt.alloc(), 64, next)?;
        let many = begun(rt.alloc(), 4, &bidders)?;
        is_refused(&rt, many.as_bytes(), number, 69)?;
    }
    Ok(())
}

// The file of 20 bytes of terms and 10,888 envelopes of one byte has 32,768 bytes, and one more byte of terms is too much.
#[test]
fn a_file_has_at_most_32768_bytes(rt: HostRuntime) -> Result<(), Fail> {
    let mut envelopes = String::new(rt.alloc());
    let mut printed = String::from_str(rt.alloc(), "line,answer\n")?;
    for line in 8..10_896u32 {
        envelopes.push_str("00\n")?;
        write!(printed, "{line},8\n")?;
    }
    printed.push_str("\nlot,bidder,amount\n")?;
    let terms = with_commas(rt.alloc(), "1,jumbo,", 20)?;
    let fits = file_of(rt.alloc(), &terms, BIDDER_3, &envelopes)?;
    assert_eq!(rt; fits.len(), 32768);
    is_accepted(&rt, fits.as_bytes(), &printed)?;
    let terms = with_commas(rt.alloc(), "1,jumbo,", 21)?;
    let long = file_of(rt.alloc(), &terms, BIDDER_3, &envelopes)?;
    assert_eq!(rt; long.len(), 32769);
    is_refused(&rt, long.as_bytes(), 23, 0)
}

#[test]
fn the_size_goes_before_the_form(rt: HostRuntime) -> Result<(), Fail> {
    let fits = vec![in rt.alloc(); b'x'; 32768]?;
    is_refused(&rt, &fits, 22, 1)?;
    let long = vec![in rt.alloc(); b'x'; 32769]?;
    is_refused(&rt, &long, 23, 0)
}

#[test]
fn bidders_are_gathered_by_rising_number(rt: HostRuntime) -> Result<(), Fail> {
    let bidders = "8,101112131415161718191a1b1c1d1e1f\n3,000102030405060708090a0b0c0d0e0f\n";
    let file = file_of(rt.alloc(), "17,delirium,bows, new", bidders, "00\n")?;
    let mut places = [NOBODY; 64];
    match gather(file.as_bytes(), &mut places) {
        Ok(g) => {
            assert_eq!(rt; g.lot, 17);
            assert_eq!(rt; g.variant, Variant::Delirium);
            assert_eq!(rt; g.terms, "bows, new".as_bytes());
            assert_eq!(rt; g.count, 2);
        }
        Err(_) => return Err(Fail::new("refused")),
    }
    assert_eq!(rt; places[0].bidder, 3);
    assert_eq!(rt; places[0].key[15], 15);
    assert_eq!(rt; places[1].bidder, 8);
    assert_eq!(rt; places[1].key[0], 16);
    assert_eq!(rt; places[2].bidder, 0);
    Ok(())
}

#[test]
fn bidders_before_a_refused_line_stay_in_their_places(rt: HostRuntime) -> Result<(), Fail> {
    let bidders =
        "8,101112131415161718191a1b1c1d1e1f\n3,000102030405060708090a0b0c0d0e0f\n8,000102030405060708090a0b0c0d0e0f\n9,000102030405060708090a0b0c0d0e0f\n";
    let file = begun(rt.alloc(), 4, bidders)?;
    let mut places = [NOBODY; 64];
    let refusal = gather(file.as_bytes(), &mut places).err();
    assert_eq!(rt; refusal.map(|f| (f.number(), f.line())), Some((17, 7)));
    assert_eq!(rt; places[0].bidder, 3);
    assert_eq!(rt; places[1].bidder, 8);
    assert_eq!(rt; places[1].key[0], 0x10);
    assert_eq!(rt; places[2].bidder, 0);
    Ok(())
}

#[test]
fn a_reader_gives_envelopes_with_their_lines(rt: HostRuntime) -> Result<(), Fail> {
    let file = begun(rt.alloc(), 7, "00ff\n")?;
    let mut reader = Reader::new(file.as_bytes());
    let _ = reader.next();
    let _ = reader.next();
    match reader.next() {
        Some(Ok(Line::Envelope { line, digits })) => {
            assert_eq!(rt; line, 8);
            assert_eq!(rt; digits, "00ff".as_bytes());
        }
        _ => return Err(Fail::new("no envelope")),
    }
    match reader.next() {
        None => Ok(()),
        Some(_) => Err(Fail::new("more than one")),
    }
}

#[test]
fn a_walk_ends_with_the_file_or_at_the_line_that_is_refused(rt: HostRuntime) -> Result<(), Fail> {
    let whole = begun(rt.alloc(), 7, "00ff\n01\n")?;
    assert!(rt; read_through(whole.as_bytes()).is_ok());
    let broken = begun(rt.alloc(), 7, "00ff\n0\n01\n")?;
    let refusal = read_through(broken.as_bytes()).err();
    assert_eq!(rt; refusal.map(|f| (f.number(), f.line())), Some((22, 9)));
    Ok(())
}

#[test]
fn as_an_iterator_a_reader_ends_only_where_the_file_is_accepted(
    rt: HostRuntime,
) -> Result<(), Fail> {
    let whole = begun(rt.alloc(), 7, "00ff\n01\n")?;
    assert_eq!(rt; Reader::new(whole.as_bytes()).take(9).count(), 4);
    let broken = begun(rt.alloc(), 7, "00ff\n0\n01\n")?;
    // A refusal comes again at each call.
    assert_eq!(rt; Reader::new(broken.as_bytes()).take(9).count(), 9);
    Ok(())
}
