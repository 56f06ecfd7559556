// The calls that change a client's standing and touch no other word: join, fail, take over, rescuer fails, and leave.
// Each is a function of the words that it reads.
#![tactic(auto)]

ghost use Rattle.std.specs.Prelude.{◌≡◌};
ghost use Rattle.calls.specs.Checks.{let_through};
ghost use Rattle.calls.specs.Calls.{asks_to_leave, leaves, stand_of, leave_of};

use block::Standing;
use block::store::Store;
use calls::{Caller, Records, accepted, check, nothing, settled, unchanged};
use numbers::answers::Answer;
use rescue::search::lowest_full;
use stages::Outcome;

// A client found with the standing `from` gets the standing `to`; what was under way is forgotten. The four calls by it
// stay apart, so that each says its two standings (edits join_of_a_failed_client to rescuer_fails_to_absent).
fn stand_as(by: Caller, from: Standing, to: Standing) -> Outcome<Records>
    ensures { result ≡ stand_of by.me.0 by.found from to by.records }
{
    if by.found == from {
        accepted(nothing(), Store::Standing(by.me, to))
    } else {
        unchanged(Answer::WrongStanding, by.records)
    }
}

// 1 join: an absent client is running.
pub fn join(by: Caller) -> Outcome<Records>
    ensures { result ≡ stand_of by.me.0 by.found Standing.Absent Standing.Running by.records }
{
    stand_as(by, Standing::Absent, Standing::Running)
}

// 7 fail: a running client has failed; its private words are lost.
pub fn fail(by: Caller) -> Outcome<Records>
    ensures { result ≡ stand_of by.me.0 by.found Standing.Running Standing.Failed by.records }
{
    stand_as(by, Standing::Running, Standing::Failed)
}

// 8 take over: a failed client is in rescue, with a rescuer that knows nothing yet.
pub fn take_over(by: Caller) -> Outcome<Records>
    ensures { result ≡ stand_of by.me.0 by.found Standing.Failed Standing.InRescue by.records }
{
    stand_as(by, Standing::Failed, Standing::InRescue)
}

// 10 rescuer fails: a client in rescue has failed again; the rescuer's private words are lost.
pub fn rescuer_fails(by: Caller) -> Outcome<Records>
    ensures { result ≡ stand_of by.me.0 by.found Standing.InRescue Standing.Failed by.records }
{
    stand_as(by, Standing::InRescue, Standing::Failed)
}

// Leave: of a running client with nothing under way and no entries.
fn let_go(by: Caller, cells: &[u8]) -> Result<Outcome<Records>, Answer>
    ensures { result
        ≡ let_through (asks_to_leave by.me.0 by.found cells.now by.records) (leaves by.me.0 by.records) }
{
    check(by.found == Standing::Running, Answer::WrongStanding)?;
    check(by.records.client.is_idle(), Answer::WrongMoment)?;
    check(lowest_full(cells, by.me).is_none(), Answer::StillHolding)?;
    Ok(accepted(by.records, Store::Standing(by.me, Standing::Absent)))
}

// 2 leave: such a client is absent.
#[tactic(auto, using(calls::proofs::LetThrough::settles))]
pub fn leave(by: Caller, cells: &[u8]) -> Outcome<Records>
    ensures { result ≡ leave_of by.me.0 by.found cells.now by.records }
{
    settled(by.records, let_go(by, cells))
}
