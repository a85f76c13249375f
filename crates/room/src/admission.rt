// Which calls a room admits in its phase.
ghost use Rattle.std.specs.Prelude.{◌≡◌};
ghost use Rattle.room.specs.Admission.{admission};

use crate::faults::RoomFault;
use crate::slots::Phase;
use crate::state::RoomState;

// The calls upon a room.
#[derive(Clone, Copy)]
pub(crate) enum Op {
    Lodge,
    Ask,
    Close,
    Open,
}

impl RoomState {
    // Refuses a call that does not fit the phase.
    pub(crate) fn admits(&self, op: Op) -> Result<(), RoomFault>
        ensures { result ≡ admission self.now.phase op }
    {
        match (self.phase, op) {
            (Phase::Open, Op::Lodge | Op::Close) | (_, Op::Ask) | (Phase::Closed, Op::Open) => {
                Ok(())
            }
            (Phase::Closed, Op::Lodge | Op::Close) => Err(RoomFault::Closed),
            (Phase::Open, Op::Open) => Err(RoomFault::NotClosed),
        }
    }
}
