// The four bytes of a record as a call.
#![tactic(auto)]

ghost use Rattle.std.specs.Prelude.{◌≡◌};
ghost use Rattle.calls.specs.Named.{of};
ghost use Rattle.decode.specs.Decode.{first_asked};

use calls::{Act, Call};

// How many bytes a record is.
pub const RECORD: usize = 4;

// A known call.
fn known(client: u8, act: Act) -> Option<Call>
    ensures { result ≡ Some (of client act) }
{
    Some(Call {
        client: client as u64,
        act,
    })
}

// The call that a record's four bytes name: call, client, cell, slot. The first byte decides, with a range for the
// others (R9.8).
#[tactic(auto, unfolding(crate::specs::Decode::decoded))]
pub fn decode(bytes: [u8; RECORD]) -> Option<Call>
    ensures { result ≡ first_asked bytes }
{
    let [call, client, cell, slot] = bytes;
    let k = cell as u64;
    let s = slot as u64;
    match call {
        1 => known(client, Act::Join),
        2 => known(client, Act::Leave),
        3 => known(client, Act::Lease(k, s)),
        4 => known(client, Act::Attach(k, s)),
        5 => known(client, Act::Release(k)),
        6 => known(client, Act::Step),
        7 => known(client, Act::Fail),
        8 => known(client, Act::TakeOver),
        9 => known(client, Act::RescueStep),
        10 => known(client, Act::RescuerFails),
        11 => known(client, Act::LookUp(k)),
        0 | 12..=255 => None,
    }
}
