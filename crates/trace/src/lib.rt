// Playing a file of calls: whole records from an input slice into an output slice, and what stands at the end. The
// block and the records of the clients are the caller's, from one turn to the next.
#![tactic(auto)]

mod ending;
mod record;

ghost use Rattle.std.specs.Prelude.{◌≡◌, length};
ghost use Rattle.trace.specs.Play.{turn_count, Turn, Ending, world_of};

use crate::ending::{put_cut, put_slots};
use crate::record::{asked_at, played, put_answer};
use block::Block;
use block::matrix::Row;
use calls::Records;
use decode::RECORD;
use numbers::CLIENTS;
use text::{LINE, SLOT_LINE};

// What a turn leaves: the block and the records, how many bytes it read, where its text ends, and the next record's
// place. Numbers and no slices: the clause `Turn` says of the caller's slices what they hold up to there.
#[derive(Clone, Copy)]
pub struct Played {
    pub block: Block,
    pub records: [Records; CLIENTS],
    pub read: usize,
    pub end: usize,
    pub place: u64,
}

// How many records a turn plays.
#[tactic(auto, unfolding(crate::specs::Play::turn_count))]
fn turn_count<'a>(place: u64, input: &'a [u8], out: &'a [u8]) -> usize
    ensures { result ≡ turn_count place (length input.now) (length out.now) }
{
    if u64::MAX - place < input.len() as u64 {
        return 0;
    }
    let whole = input.len() / RECORD;
    whole.min(out.len() / LINE)
}

// Plays the whole records of the input, from the block, the matrix and the records given, as many as the output has room
// for the longest line each. `place` is the place of the first; where the places might run out of their 64 bits, none is
// played. The words stand in locals, and each store is put in place.
pub fn play_records<'a>(
    input: &'a [u8],
    out: &'a mut [u8],
    place: u64,
    block: Block,
    eras: &'a mut [Row],
    records: [Records; CLIENTS],
) -> Played
    ensures { Turn (world_of block eras.old records) place input.now out.old result eras.new out.new }
{
    let count = turn_count(place, input, &*out);
    let mut words = block;
    let mut all = records;
    let mut end: usize = 0;
    for k in 0..count {
        let asked = asked_at(input, k);
        let answer = played(asked, &mut words, &mut *eras, &mut all);
        end = put_answer(out, end, place, k, answer);
    }
    Played {
        block: words,
        records: all,
        read: count * RECORD,
        end,
        place: place + count as u64,
    }
}

// What is printed after the last whole record: the line of a cut one, where bytes of it are left, and the slots in
// use. It is written where the output has room for the longest that it could be. Answers how many bytes it is.
#[tactic(auto, using(crate::proofs::Slots::cut_most))]
pub fn play_end<'a>(rest: &'a [u8], place: u64, headers: &'a [u64], out: &'a mut [u8]) -> usize
    ensures { Ending headers.now place rest.now out.old result out.new }
{
    if out.len() < LINE {
        return 0;
    }
    if (out.len() - LINE) / SLOT_LINE < headers.len() {
        return 0;
    }
    let end = put_cut(out, rest, place);
    put_slots(out, end, headers)
}
