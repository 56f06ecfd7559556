// A call of words that are lent: the eleven acts put together behind check 1. The doors of `machine`, which take the
// block and the matrix by value, and the player, which keeps the words in place, both go through it.
#![tactic(auto)]

ghost use Rattle.std.specs.Prelude.{◌≡◌};
ghost use Rattle.block.specs.Lent.{lent};
ghost use Rattle.calls.specs.Checks.{after_checks};
ghost use Rattle.calls.specs.Calls.{asks, effect, plain_call};

use block::matrix::{Row, own_era};
use block::{Words, standing_at};
use calls::{Act, Call, Caller, Records, unchanged};
use lookup_call::look_up;
use numbers::Client;
use opening_calls::{attach, lease, release};
use stages::Outcome;
use standing_calls::{fail, join, leave, rescuer_fails, take_over};
use step_calls::{rescue_step, step};

// What is asked of a client that there is. A match and no closure: what is asked is an enum (R9.7).
#[tactic(auto, unfolding(calls::specs::Calls::asks, calls::specs::Calls::effect))]
fn acted<'a>(
    me: Client,
    act: Act,
    words: Words<'a>,
    eras: &'a [Row],
    records: Records,
) -> Outcome<Records>
    ensures { result
        ≡ after_checks (asks act me.0 (lent words.entry) eras.now records) records
        (effect act me.0 (lent words.entry) eras.now records) }
{
    let found = standing_at(words.standings, me);
    let by = Caller { me, found, records };
    match act {
        Act::Join => join(by),
        Act::Leave => leave(by, words.cells),
        Act::Lease(cell, slot) => lease(by, cell, slot, words.cells, own_era(eras, me)),
        Act::Attach(cell, slot) => attach(by, cell, slot, words.cells, own_era(eras, me)),
        Act::Release(cell) => release(by, cell, words.cells),
        Act::Step => step(by, words.headers, eras),
        Act::Fail => fail(by),
        Act::TakeOver => take_over(by),
        Act::RescueStep => rescue_step(by, words, eras),
        Act::RescuerFails => rescuer_fails(by),
        Act::LookUp(cell) => look_up(by, cell, words.cells),
    }
}

// A call of words that are known to be within their limits: check 1, and then what is asked of the client.
#[tactic(auto, unfolding(calls::specs::Calls::plain_call))]
pub fn call<'a>(call: Call, words: Words<'a>, eras: &'a [Row], records: Records) -> Outcome<Records>
    ensures { result ≡ plain_call call (lent words.entry) eras.now records }
{
    match Client::try_from(call.client) {
        Ok(me) => acted(me, call.act, words, eras, records),
        Err(answer) => unchanged(answer, records),
    }
}
