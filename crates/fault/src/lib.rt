//! What every fault tells: its number, its layer and a place.
#![tactic(auto)]

ghost use Rattle.std.specs.Prelude.{◌≡◌, ℕ};
ghost use Rattle.fault.specs.declared.Layer.{Layer as TheLayer};
ghost use Rattle.fault.specs.declared.Place.{Place as ThePlace};

/// The layers of the service, from the lowest up.
#[derive(Clone, Copy, PartialEq, Eq, Debug)]
pub enum Layer {
    /// The permutations of blocks.
    Engine,
    /// Sealing, checking and opening of texts.
    Cipher,
    /// Letters, pens and sealed bids.
    Envelope,
    /// The ordered list.
    List,
    /// Sale rooms.
    Room,
    /// Sale files.
    File,
}

/// Where a fault lies.
#[derive(Clone, Copy, PartialEq, Eq, Debug)]
pub enum Place {
    /// Nowhere in particular, told as 0.
    Zero,
    /// At a head, by what it says.
    Head { bidder: u32, sequence: u32 },
    /// In a line of a file, counted from 1; 0 where no line is told.
    Line(u32),
}

/// A fault. Each layer has an enum of its own, whose `impl` says what its cases tell.
pub trait Fault: Copy {
    ghost number_is: { Self → ℕ };

    ghost layer_is: { Self → TheLayer };

    ghost place_is: { Self → ThePlace };

    /// The number of the refusal. A fault that holds one of the layer below has that one's number.
    fn number(self) -> u8
        ensures { result ≡ number_is self };

    /// The layer whose fault this is. The fault that it may hold tells in which layer the refusal started.
    fn layer(self) -> Layer
        ensures { result ≡ layer_is self };

    /// The place that the refusal is about.
    fn place(self) -> Place
        ensures { result ≡ place_is self };
}
