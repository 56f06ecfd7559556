// The numbers of the rules. An era, a client number and a slot number are a type each, so that no code can take
// one for another; a caller's number becomes a client or a slot where it has passed its check. The answers stand in
// `answers`.
#![tactic(auto)]

pub mod answers;

ghost use Rattle.std.specs.Prelude.{◌≡◌, ◌≤◌};
ghost use Rattle.numbers.specs.Sizes.{below, checked_client, checked_slot, checked_cell, raised};

use answers::Answer;

// How many there are of each thing; each is numbered from 0.
pub const CLIENTS: usize = 8;

pub const SLOTS: usize = 64;

pub const CELLS: usize = 16;

// No lease and no attach opens at this own era or above.
pub const ERA_STOP: Era = Era(4294967200);

// No era of a history is above this, and no count above that.
pub const ERA_LIMIT: Era = Era(4294967216);

pub const COUNT_LIMIT: u32 = 128;

// A client's era, 32 bits.
#[derive(Clone, Copy, PartialEq, Eq, PartialOrd, Ord)]
pub struct Era(pub u32);

// A client's number.
#[derive(Clone, Copy, PartialEq, Eq)]
pub struct Client(pub u8);

// A slot's number.
#[derive(Clone, Copy, PartialEq, Eq)]
pub struct Slot(pub u8);

// The number, where it is one of the first `N`.
fn below<const N: usize>(number: u64) -> Option<u8>
    requires { N ≤ 256 }
    ensures { result ≡ below N number }
{
    if number < N as u64 {
        Some(number as u8)
    } else {
        None
    }
}

// The client that a number names.
impl TryFrom<u64> for Client {
    type Error = Answer;

    ghost try_from_gives = { λ number result. result ≡ checked_client number };

    fn try_from(number: u64) -> Result<Client, Answer> {
        below::<CLIENTS>(number)
            .map(Client)
            .ok_or(Answer::NoSuchClient)
    }
}

// The slot that a number names.
impl TryFrom<u64> for Slot {
    type Error = Answer;

    ghost try_from_gives = { λ number result. result ≡ checked_slot number };

    fn try_from(number: u64) -> Result<Slot, Answer> {
        below::<SLOTS>(number).map(Slot).ok_or(Answer::NoSuchSlot)
    }
}

// The cell that `number` names.
pub fn checked_cell(number: u64) -> Result<u8, Answer>
    ensures { result ≡ checked_cell number }
{
    below::<CELLS>(number).ok_or(Answer::NoSuchCell)
}

impl Era {
    // The next era. Within the limits none is near the end of its 32 bits; past it the word starts over.
    pub fn raise(self) -> Era
        ensures { result ≡ raised self }
    {
        Era(self.0.wrapping_add(1))
    }
}
