//! A refusal in words, for programs that tell what calls answer.
#![tactic(auto)]

use fault::{Fault, Layer, Place};
use std::fmt;

/// Shows a fault as its number, its layer, its place and, in brackets, what the number means. A place that is nowhere in
/// particular is shown as 0.
#[derive(Clone, Copy)]
pub struct Refusal<F: Fault>(pub F);

impl<F: Fault> fmt::Display for Refusal<F> {
    fn fmt<W: fmt::Write>(&self, f: &mut fmt::Formatter<W>) -> fmt::Result {
        let number = self.0.number();
        let layer = layer_name(self.0.layer());
        write!(f, "refusal {number} in layer {layer}, at ")?;
        match self.0.place() {
            Place::Zero => f.write_str("0")?,
            Place::Head { bidder, sequence } => {
                write!(f, "bidder {bidder}, sequence {sequence}")?
            }
            Place::Line(line) => write!(f, "line {line}")?,
        }
        let meaning = meaning_of(number);
        write!(f, " ({meaning})")
    }
}

fn layer_name(layer: Layer) -> &'static str {
    match layer {
        Layer::Engine => "engine",
        Layer::Cipher => "cipher",
        Layer::Envelope => "envelope",
        Layer::List => "list",
        Layer::Room => "room",
        Layer::File => "file",
    }
}

// A number means the same in every layer.
fn meaning_of(number: u8) -> &'static str {
    match number {
        1 => "the key has not 16 bytes",
        2 => "the nonce has not 12 bytes",
        3 => "the associated data has more than 65536 bytes",
        4 => "the text has more than 65536 bytes",
        5 => "the place for the tag has another length than the variant's tags",
        6 => "a place has another length than what is written there",
        7 => "the tag is wrong",
        8 => "the envelope or its place has another length than the variant's envelopes",
        9 => "the envelope is for another lot",
        10 => "the bidder is not in the register",
        11 => "the sequence is not above the bidder's last accepted one",
        12 => "the room is closed",
        13 => "the room is not closed",
        14 => "a place lent to the opening has not its size",
        15 => "the terms have more than 64 bytes",
        16 => "the register is not 1 to 64 entries by strictly rising bidder",
        17 => "an equal entry is there already",
        18 => "the list is full",
        19 => "the pen has given its last sequence",
        20 => "the note has more than 55 bytes",
        21 => "the amount is above 9999999999.99",
        22 => "the line has another form",
        23 => "the file has more than 32768 bytes",
        _ => "no refusal has this number",
    }
}
