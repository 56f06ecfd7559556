// What stands after the records' lines: the line of a cut record, and a line for each slot in use. The output and its
// end go apart, as in `play_end`, whose clause `Ending` says what the caller's slice holds.
ghost use Rattle.std.specs.Prelude.{◌+◌, ◌*◌, ◌≤◌, length};
ghost use Rattle.text.specs.Text.{line_size, slot_line_size, Put};
ghost use Rattle.trace.specs.Play.{cut_text, slot_text, slots_text};

use header::unpack;
use numbers::answers::Answer;
use text::{put_line, put_slot_line};

// The line of a record that is cut short, where bytes of one are left. Answers where it ends.
pub(crate) fn put_cut<'a>(out: &'a mut [u8], rest: &'a [u8], place: u64) -> usize
    requires { line_size ≤ length out.old }
    ensures { Put out.old 0 (cut_text place rest.now) out.new result }
{
    if rest.is_empty() {
        return 0;
    }
    put_line(out, 0, place, Answer::CutRecord.number())
}

// The line of a slot, where its count is above 0. Answers where it ends.
fn put_slot(out: &mut [u8], at: usize, slot: usize, header: u64) -> usize
    requires { at + slot_line_size ≤ length out.old }
    ensures { Put out.old at (slot_text slot header) out.new result }
{
    let count = unpack(header).count;
    if count == 0 {
        return at;
    }
    put_slot_line(out, at, slot as u64, count as u64)
}

// The lines of the slots in use, in their order. Answers where they end.
#[tactic(auto, using(crate::proofs::Slots::below_most))]
pub(crate) fn put_slots<'a>(out: &'a mut [u8], at: usize, headers: &'a [u64]) -> usize
    requires { at + slot_line_size * length headers.now ≤ length out.old }
    ensures { Put out.old at (slots_text 0 headers.now) out.new result }
{
    let mut end = at;
    for (slot, header) in headers.iter().enumerate() {
        end = put_slot(out, end, slot, *header);
    }
    end
}
