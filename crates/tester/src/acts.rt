// Calls and the records of four bytes that name them.
use calls::{Act, Call};
use decode::{RECORD, decode};

// A record: call, client, cell and slot.
pub(crate) type Record = [u8; RECORD];

// A step of a client that there is none: it is refused, and changes nothing.
const NOBODYS_STEP: Call = Call {
    client: 8,
    act: Act::Step,
};

// The call that a sweep plays for a record. No Option: what names no known call is played, refused and printed as
// nobody's step, and what the program prints may not change.
pub(crate) fn swept_call(record: Record) -> Call {
    decode(record).unwrap_or(NOBODYS_STEP)
}

// The numbers of a call's record: which call, of which client, with which cell and slot; 0 where it names none.
pub(crate) fn record_numbers(call: Call) -> [u64; 4] {
    let (number, cell, slot) = match call.act {
        Act::Join => (1, 0, 0),
        Act::Leave => (2, 0, 0),
        Act::Lease(cell, slot) => (3, cell, slot),
        Act::Attach(cell, slot) => (4, cell, slot),
        Act::Release(cell) => (5, cell, 0),
        Act::Step => (6, 0, 0),
        Act::Fail => (7, 0, 0),
        Act::TakeOver => (8, 0, 0),
        Act::RescueStep => (9, 0, 0),
        Act::RescuerFails => (10, 0, 0),
        Act::LookUp(cell) => (11, cell, 0),
    };
    [number, call.client, cell, slot]
}
