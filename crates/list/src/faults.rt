// The faults of the list.

ghost use Rattle.list.specs.Faults.{fault_number, fault_layer, fault_place};

use fault::{Fault, Layer, Place};

/// Why an insertion is refused.
#[derive(Clone, Copy, PartialEq, Eq, Debug)]
pub enum ListFault {
    /// An entry equal in order to the new one is already there.
    EqualEntry,
    /// Every place is taken.
    Full,
}

impl Fault for ListFault {
    ghost number_is = { fault_number };

    ghost layer_is = { fault_layer };

    ghost place_is = { fault_place };

    fn number(self) -> u8 {
        match self {
            ListFault::EqualEntry => 17,
            ListFault::Full => 18,
        }
    }

    fn layer(self) -> Layer {
        Layer::List
    }

    fn place(self) -> Place {
        Place::Zero
    }
}
