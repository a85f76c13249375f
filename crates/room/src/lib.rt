// The room layer: sale rooms, where envelopes are lodged until closing and opened afterwards.
#![tactic(auto)]

mod admission;
mod conditions;
mod faults;
mod guard;
mod lodging;
mod making;
mod offers;
mod opening;
mod printing;
mod register;
mod room;
mod sheet;
mod slots;
mod state;
mod theorems;

pub use faults::RoomFault;
pub use opening::MOST_PAGE_BYTES;
pub use register::RegisterEntry;
pub use room::Room;
pub use sheet::SheetEntry;
pub use state::{MOST_BIDDERS, RoomState};
pub use theorems::{call_laws_stand, page_of_lot_17_stands, promise_stands};
