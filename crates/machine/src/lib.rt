// One call of a block: any call, with any numbers, on any words. `checked_call` answers 11 first where the words are
// beyond their limits; `plain_call` is the same call for words that are known to be within them.
#![tactic(auto)]

ghost use Rattle.std.specs.Prelude.{◌≡◌};
ghost use Rattle.calls.specs.Calls.{plain_call, checked_call};

use block::Block;
use block::matrix::Matrix;
use calls::{Call, Records, unchanged};
use limit_check::within;
use numbers::answers::Answer;
use stages::Outcome;

// A call of words that are known to be within their limits.
pub fn plain_call(call: Call, block: Block, eras: Matrix, records: Records) -> Outcome<Records>
    ensures { result ≡ plain_call call block eras records }
{
    in_place::call(call, block.lend(), &eras, records)
}

// A call of any block, any matrix and any records: 11 where they are beyond their limits, before every other check.
#[tactic(auto, unfolding(calls::specs::Calls::checked_call))]
pub fn checked_call(call: Call, block: Block, eras: Matrix, records: Records) -> Outcome<Records>
    ensures { result ≡ checked_call call block eras records }
{
    let Records { client, rescuer } = records;
    if within(call.client, block, eras, client, rescuer) {
        plain_call(call, block, eras, records)
    } else {
        unchanged(Answer::BeyondLimits, records)
    }
}
