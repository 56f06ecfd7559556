// The two conditions that tell a rescuer whether the logged swap was won: condition 1 first, for another host may note
// and swap between the two. Client and entry stay two parameters: the rescuer's step holds the entry alone.
ghost use Rattle.std.specs.Prelude.{◌≡◌, ◌<◌};
ghost use Rattle.rescue.specs.Rescue.{swap_stands, first_condition, second_condition, from_row, onward};

use crate::{RescuerRecord, RescuerStep, went};
use block::Entry;
use block::store::Store;
use header::unpack;
use numbers::answers::Answer;
use numbers::{CLIENTS, Client, Era};
use stages::Outcome;

// Whether a header is the client's own swap at its own era.
fn swap_stands(c: Client, own: Era, header: u64) -> bool
    ensures { result ≡ swap_stands c own header }
{
    let fields = unpack(header);
    fields.client == c && fields.era == own
}

// 2. Condition 1: the logged slot's header is the client's own, at its own era.
#[tactic(auto, unfolding(crate::specs::Rescue::first_condition))]
pub fn first(c: Client, entry: Entry, own: Era, header: u64) -> Outcome<RescuerRecord>
    ensures { result ≡ first_condition c entry own header }
{
    let step = if swap_stands(c, own, header) {
        RescuerStep::Cell(entry)
    } else {
        onward(c, entry, 0)
    };
    went(Answer::Accepted, step, Store::Nothing)
}

// 3. Condition 2, at client `j`: its row has seen the client's own era.
#[tactic(auto, unfolding(crate::specs::Rescue::second_condition))]
pub fn second(c: Client, entry: Entry, j: Client, own: Era, seen: Era) -> Outcome<RescuerRecord>
    ensures { result ≡ second_condition c entry j own seen }
{
    let step = if own <= seen {
        RescuerStep::Cell(entry)
    } else {
        onward(c, entry, j.0 as u32 + 1)
    };
    went(Answer::Accepted, step, Store::Nothing)
}

// Condition 2 at client `j` or later; the client itself is passed over.
fn onward(c: Client, entry: Entry, j: u32) -> RescuerStep
    requires { j < 4294967295 }
    ensures { result ≡ onward c entry j }
{
    if j == c.0 as u32 {
        from_row(entry, j + 1)
    } else {
        from_row(entry, j)
    }
}

// Condition 2 at client `j`; after the last one, the search.
fn from_row(entry: Entry, j: u32) -> RescuerStep
    ensures { result ≡ from_row entry j }
{
    if j < CLIENTS as u32 {
        RescuerStep::Condition2(entry, Client(j as u8))
    } else {
        RescuerStep::Search
    }
}
