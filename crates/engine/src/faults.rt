// The faults of engines.
ghost use Rattle.engine.specs.Faults.{fault_number, fault_layer, fault_place};

use fault::{Fault, Layer, Place};

/// Why an engine refuses a call.
#[derive(Clone, Copy, PartialEq, Eq, Debug)]
pub enum EngineFault {
    /// The place is not one block long, or four in a call for four.
    BlockLength,
}

impl Fault for EngineFault {
    ghost number_is = { fault_number };

    ghost layer_is = { fault_layer };

    ghost place_is = { fault_place };

    fn number(self) -> u8 {
        match self {
            EngineFault::BlockLength => 6,
        }
    }

    fn layer(self) -> Layer {
        Layer::Engine
    }

    fn place(self) -> Place {
        Place::Zero
    }
}
