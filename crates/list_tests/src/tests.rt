// What insertions answer and leave, on small lists.

use crate::kinds::*;
use fault::{Fault, Layer, Place};
use list::{Entry, ListFault, Ordered};
use std::process::Abort;

const BLANK: Instrument = Instrument {
    number: 0,
    maker: 0,
};

fn instrument(number: u32, maker: u8) -> Instrument {
    Instrument { number, maker }
}

fn offer(amount: u64, bidder: u32) -> Offer {
    Offer { amount, bidder }
}

// Inserts one entry after another, and checks what each insertion answers.
fn answers<T: Entry + Drop>(
    rt: &impl Abort,
    list: &mut Ordered<T>,
    insertions: &[(T, Result<usize, ListFault>)],
) {
    for (e, answer) in insertions {
        assert_eq!(rt; list.insert(*e), *answer);
    }
}

#[test]
fn entries_come_by_rising_number(rt: HostRuntime) {
    let mut places = [BLANK; 4];
    let mut list = Ordered::new(&mut places);
    answers(
        &rt,
        &mut list,
        &[
            (instrument(20, 2), Ok(1)),
            (instrument(10, 1), Ok(2)),
            (instrument(30, 3), Ok(3)),
            (instrument(25, 4), Ok(4)),
        ],
    );
    assert_eq!(rt;
        list.entries(),
        [
            instrument(10, 1),
            instrument(20, 2),
            instrument(25, 4),
            instrument(30, 3),
        ]
        .as_slice()
    );
}

#[test]
fn offers_come_by_falling_amount(rt: HostRuntime) {
    let mut places = [offer(0, 0); 3];
    let mut list = Ordered::new(&mut places);
    answers(
        &rt,
        &mut list,
        &[
            (offer(500, 1), Ok(1)),
            (offer(900, 2), Ok(2)),
            (offer(700, 3), Ok(3)),
        ],
    );
    assert_eq!(rt;
        list.entries(),
        [offer(900, 2), offer(700, 3), offer(500, 1)].as_slice()
    );
}

#[test]
fn places_behind_the_entries_stay(rt: HostRuntime) {
    let mut places = [
        instrument(10, 1),
        instrument(7, 7),
        instrument(8, 8),
        instrument(9, 9),
    ];
    let mut list = Ordered {
        places: &mut places,
        count: 1,
    };
    answers(&rt, &mut list, &[(instrument(5, 2), Ok(2))]);
    assert_eq!(rt;
        places,
        [
            instrument(5, 2),
            instrument(10, 1),
            instrument(8, 8),
            instrument(9, 9),
        ]
    );
}

#[test]
fn an_equal_entry_is_refused_though_it_differs_elsewhere(rt: HostRuntime) {
    let mut places = [BLANK; 3];
    let mut list = Ordered::new(&mut places);
    answers(
        &rt,
        &mut list,
        &[
            (instrument(10, 1), Ok(1)),
            (instrument(20, 2), Ok(2)),
            (instrument(10, 3), Err(ListFault::EqualEntry)),
        ],
    );
    assert_eq!(rt; list.count, 2);
    assert_eq!(rt; places, [instrument(10, 1), instrument(20, 2), BLANK]);
}

#[test]
fn a_full_list_refuses_an_equal_entry_first(rt: HostRuntime) {
    let mut places = [instrument(10, 1), instrument(20, 2)];
    let mut list = Ordered {
        places: &mut places,
        count: 2,
    };
    answers(
        &rt,
        &mut list,
        &[
            (instrument(20, 3), Err(ListFault::EqualEntry)),
            (instrument(15, 3), Err(ListFault::Full)),
        ],
    );
    assert_eq!(rt; list.count, 2);
    assert_eq!(rt; places, [instrument(10, 1), instrument(20, 2)]);
}

#[test]
fn no_place_and_a_count_too_large_are_full(rt: HostRuntime) {
    let mut none: [Instrument; 0] = [];
    let mut empty = Ordered::new(&mut none);
    answers(
        &rt,
        &mut empty,
        &[(instrument(10, 1), Err(ListFault::Full))],
    );
    let mut places = [instrument(10, 1)];
    let mut list = Ordered {
        places: &mut places,
        count: 9,
    };
    answers(
        &rt,
        &mut list,
        &[
            (instrument(10, 2), Err(ListFault::EqualEntry)),
            (instrument(20, 2), Err(ListFault::Full)),
        ],
    );
    assert_eq!(rt; list.entries(), [instrument(10, 1)].as_slice());
}

#[test]
fn a_fault_tells_number_layer_and_place(rt: HostRuntime) {
    assert_eq!(rt; ListFault::EqualEntry.number(), 17);
    assert_eq!(rt; ListFault::Full.number(), 18);
    assert_eq!(rt; ListFault::Full.layer(), Layer::List);
    assert_eq!(rt; ListFault::Full.place(), Place::Zero);
}
