// One record of the input: what it asks for, its call, its line.
ghost use Rattle.std.specs.Prelude.{◌≡◌, ◌+◌, ◌*◌, ◌≤◌, length, drop};
ghost use Rattle.numbers.specs.Answers.{number_of};
ghost use Rattle.text.specs.Text.{line, line_size, PutIn};
ghost use Rattle.decode.specs.Decode.{record_size, first_asked};
ghost use Rattle.trace.specs.Play.{last_place, plainly, told, next, world_of};

use block::Block;
use block::matrix::Row;
use block::store::{put_era, write};
use calls::{Call, Records};
use decode::{RECORD, decode};
use numbers::answers::Answer;
use text::put_line;
use world::records_at;

// What record k of the input asks for.
pub(crate) fn asked_at(input: &[u8], k: usize) -> Option<Call>
    requires { k * record_size + record_size ≤ length input.now }
    ensures { result ≡ first_asked (drop (k * record_size) input.now) }
{
    match &input[k * RECORD..] {
        [call, client, cell, slot, ..] => decode([*call, *client, *cell, *slot]),
        _ => None,
    }
}

// Plays what a record asks for, in place: 12 where it asks for no call, by the let .. else that R9.7 names.
#[tactic(auto, unfolding(world::specs::World::after_by))]
pub(crate) fn played<'a>(
    asked: Option<Call>,
    block: &'a mut Block,
    eras: &'a mut [Row],
    records: &'a mut [Records],
) -> Answer
    ensures answer { result ≡ told plainly (world_of block.old eras.old records.old) asked }
    ensures world { world_of block.new eras.new records.new ≡ next plainly (world_of block.old eras.old records.old) asked }
{
    let Some(call) = asked else {
        return Answer::NoSuchCall;
    };
    let given = records_at(&*records, call.client);
    let outcome = in_place::call(call, block.lend(), &*eras, given);
    block.put(outcome.store);
    put_era(outcome.store, eras);
    write(records, call.client as usize, outcome.next);
    outcome.answer
}

// Its line, k places after `place`. Answers where it ends.
pub(crate) fn put_answer(out: &mut [u8], at: usize, place: u64, k: usize, answer: Answer) -> usize
    requires { place + k ≤ last_place }
    ensures { PutIn line_size out.old at (line (place + k) (number_of answer)) out.new result }
{
    put_line(out, at, place + k as u64, answer.number())
}
