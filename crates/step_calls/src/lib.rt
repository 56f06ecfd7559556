// The calls that take a step: of a running client's operation, or of the rescue of a failed one. The words that they
// read are lent.
#![tactic(auto)]

ghost use Rattle.std.specs.Prelude.{◌≡◌};
ghost use Rattle.block.specs.Lent.{lent};
ghost use Rattle.stages.specs.Stages.{step_of};
ghost use Rattle.calls.specs.Checks.{let_through};
ghost use Rattle.calls.specs.Calls.{client, asks_to_step, of_client, step_call_of, rescue_call_of};

use block::matrix::Row;
use block::{Standing, Words};
use calls::{Caller, Records, check, of_client, of_rescuer, settled, unchanged};
use numbers::answers::Answer;
use stages::Outcome;

// One stage of the operation that is under way.
fn take_step<'a>(
    by: Caller,
    headers: &'a [u64],
    eras: &'a [Row],
) -> Result<Outcome<Records>, Answer>
    ensures { result
        ≡ let_through (asks_to_step by.found by.records)
        (of_client (step_of (client by.me.0) headers.now eras.now by.records.client.stage) by.records) }
{
    check(by.found == Standing::Running, Answer::WrongStanding)?;
    check(!by.records.client.is_idle(), Answer::WrongMoment)?;
    let stepped = by.records.client.step_lent(by.me, headers, eras);
    Ok(of_client(stepped, by.records))
}

// 6 step.
#[tactic(auto, using(calls::proofs::LetThrough::settles))]
pub fn step<'a>(by: Caller, headers: &'a [u64], eras: &'a [Row]) -> Outcome<Records>
    ensures { result ≡ step_call_of by.me.0 by.found headers.now eras.now by.records }
{
    settled(by.records, take_step(by, headers, eras))
}

// 9 rescue step: one step of the rescue.
pub fn rescue_step<'a>(by: Caller, words: Words<'a>, eras: &'a [Row]) -> Outcome<Records>
    ensures { result ≡ rescue_call_of by.me.0 by.found (lent words.entry) eras.now by.records }
{
    if by.found == Standing::InRescue {
        let rescued = by.records.rescuer.step_lent(by.me, words, eras);
        of_rescuer(rescued, by.records)
    } else {
        unchanged(Answer::WrongStanding, by.records)
    }
}
