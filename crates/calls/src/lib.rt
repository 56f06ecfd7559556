// What a call is: a client and what is asked of it, the records that it is given and hands back, its answer and the one
// word that it writes. specs/ has the eleven calls, their checks in order and what each does; the crates above have
// their code.
#![tactic(auto)]

ghost use Rattle.std.specs.Prelude.{◌≡◌};
ghost use Rattle.calls.specs.Checks.{checked, settled, unchanged};
ghost use Rattle.calls.specs.Calls.{nothing, accepted, of_client, of_rescuer};

use block::Standing;
use block::store::Store;
use numbers::Client;
use numbers::answers::Answer;
use rescue::{RescuerRecord, RescuerStep};
use stages::{ClientRecord, Outcome, Stage};

// What is asked of a client, with any numbers where it names a cell and a slot.
#[derive(Clone, Copy, PartialEq, Eq)]
pub enum Act {
    Join,
    Leave,
    Lease(u64, u64),
    Attach(u64, u64),
    Release(u64),
    Step,
    Fail,
    TakeOver,
    RescueStep,
    RescuerFails,
    LookUp(u64),
}

// A call: a client, by any number, and what is asked of it.
#[derive(Clone, Copy, PartialEq, Eq)]
pub struct Call {
    pub client: u64,
    pub act: Act,
}

// The private words of one client: its own record and its rescuer's.
#[derive(Clone, Copy, PartialEq, Eq)]
pub struct Records {
    pub client: ClientRecord,
    pub rescuer: RescuerRecord,
}

// The client that a call names, the standing it was found with and the records that the call is given.
#[derive(Clone, Copy, PartialEq, Eq)]
pub struct Caller {
    pub me: Client,
    pub found: Standing,
    pub records: Records,
}

// Records with nothing under way.
pub fn nothing() -> Records
    ensures { result ≡ nothing }
{
    Records {
        client: ClientRecord { stage: Stage::Idle },
        rescuer: RescuerRecord {
            step: RescuerStep::ReadLog,
        },
    }
}

// A check: nothing where it passes, else the answer of the call.
pub fn check(passes: bool, refusal: Answer) -> Result<(), Answer>
    ensures { result ≡ checked (record { passes = passes; refusal = refusal }) }
{
    if passes { Ok(()) } else { Err(refusal) }
}

// The outcome of a call whose checks let it through; else its refusal, which leaves everything as it was.
pub fn settled(records: Records, done: Result<Outcome<Records>, Answer>) -> Outcome<Records>
    ensures { result ≡ settled records done }
{
    done.unwrap_or_else(|answer| unchanged(answer, records))
}

// A call that leaves everything as it was.
pub fn unchanged(answer: Answer, records: Records) -> Outcome<Records>
    ensures { result ≡ unchanged answer records }
{
    Outcome {
        answer,
        next: records,
        store: Store::Nothing,
    }
}

// An accepted call.
pub fn accepted(records: Records, store: Store) -> Outcome<Records>
    ensures { result ≡ accepted records store }
{
    Outcome {
        answer: Answer::Accepted,
        next: records,
        store,
    }
}

// A client's step as the outcome of a call.
pub fn of_client(stepped: Outcome<ClientRecord>, records: Records) -> Outcome<Records>
    ensures { result ≡ of_client stepped records }
{
    let client = stepped.next;
    stepped.handing(Records { client, ..records })
}

// A rescuer's step as the outcome of a call.
pub fn of_rescuer(rescued: Outcome<RescuerRecord>, records: Records) -> Outcome<Records>
    ensures { result ≡ of_rescuer rescued records }
{
    let rescuer = rescued.next;
    rescued.handing(Records { rescuer, ..records })
}
