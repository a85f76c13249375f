// The promise and other laws of rooms, as the contracts of calls that have no other effect than to ask for their proof.
ghost use Rattle.room.specs.CallLaws.{CallLaws};
ghost use Rattle.room.specs.Lot17.{PageOfLot17};
ghost use Rattle.room.specs.Promise.{Promise};

/// The promise about rooms stands, after every list of calls.
pub fn promise_stands()
    ensures { Promise }
{}

/// The laws of a room's calls stand: which registers are lawful, which check decides, what counts as lodged and as answered.
pub fn call_laws_stand()
    ensures { CallLaws }
{}

/// The page of lot 17 is what rooms with its standing amounts print, and there are such rooms.
pub fn page_of_lot_17_stands()
    ensures { PageOfLot17 }
{}
