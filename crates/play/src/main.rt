// Plays the records of standard input from a fresh block: a line for each on standard output, and at the end the slots
// in use. Each turn reads a chunk, plays it and writes its text, so a file of any length takes the same memory. The
// output has room for the longest line of every record of a chunk, so a turn plays all of it. A read or a write that
// fails ends the program with its error.
#![tactic(auto)]

use decode::RECORD;
use input::read_full;
use std::io;
use text::LINE;
use trace::{Played, play_end, play_records};

// How many records a turn plays, how many bytes they are, and the room for their lines.
const TURN: usize = 4096;

const CHUNK: usize = RECORD * TURN;

const ROOM: usize = LINE * TURN;

// Before the first record.
fn first() -> Played {
    Played {
        block: block::fresh_block(),
        records: world::fresh_records(),
        read: 0,
        end: 0,
        place: 1,
    }
}

// Writes the first `n` bytes of the output.
fn write_first(rt: &impl Print, out: &[u8], n: usize) -> io::Result<()> {
    let end = n.min(out.len());
    rt.write_all(&out[..end])
}

// Writes the line of a cut record, where the last turn left bytes of its chunk, and the slots in use.
fn finish(rt: &impl Print, input: &[u8], out: &mut [u8], last: Played) -> io::Result<()> {
    let Some(rest) = input.get(last.read..) else {
        return Ok(());
    };
    let end = play_end(rest, last.place, &last.block.headers, out);
    write_first(rt, out, end)
}

fn main(rt: HostRuntime) -> io::Result<()> {
    let mut input = rt.stdin();
    let mut buf = [0; CHUNK];
    let mut out = [0; ROOM];
    // A chunk is whole records, and their lines have room: a turn leaves none of it unplayed.
    prove!(buf.len() == 16384);
    prove!(out.len() == 172032);
    let mut eras = block::matrix::fresh_eras();
    let mut played = first();
    // No `rt.forever()`: it would be a `Wait`.
    for _ in 0..u64::MAX {
        let n = read_full(&mut input, &mut buf)?;
        played = play_records(
            &buf[..n],
            &mut out,
            played.place,
            played.block,
            &mut eras,
            played.records,
        );
        write_first(&rt, &out, played.end)?;
        if n < CHUNK {
            return finish(&rt, &buf[..n], &mut out, played);
        }
    }
    Ok(())
}
