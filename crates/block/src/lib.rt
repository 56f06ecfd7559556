// The words that clients and rescuers share: a header for each slot, the cells, a log and a standing for each
// client. The era matrix stands beside the block and not in it. Nothing here knows the calls or the stages.
//
// Every read is total: past the last word it finds what a fresh block holds there.
#![tactic(auto)]

pub mod matrix;
pub mod store;

ghost use Rattle.std.specs.Prelude.{◌≡◌, get_or};
ghost use Rattle.block.specs.Block.{header_at, cell_at, cell_in, cell_index, log_at, standing_at, fresh_block};
ghost use Rattle.block.specs.Lent.{lent};

use numbers::{CELLS, CLIENTS, Client, Era, SLOTS, Slot};

// The cells of all clients.
pub const ALL_CELLS: usize = CLIENTS * CELLS;

// The byte of an empty cell: it names no slot. Bytes stay in the block, and no Options: who lends cells lends bytes, to
// `cell_at`, `lowest_full` and the calls, and would have to make Options of them first.
pub const EMPTY: u8 = 255;

// What an operation does to its slot's count.
#[derive(Clone, Copy, PartialEq, Eq)]
pub enum Kind {
    Lease,
    Attach,
    Release,
}

// An operation: what it does, for which cell, to which slot.
#[derive(Clone, Copy, PartialEq, Eq)]
pub struct Operation {
    pub kind: Kind,
    pub cell: u8,
    pub slot: Slot,
}

// A log that was written: the operation, the own era it was logged at and the count it had read.
#[derive(Clone, Copy, PartialEq, Eq)]
pub struct Entry {
    pub operation: Operation,
    pub era: Era,
    pub count: u32,
}

// A client's standing.
#[derive(Clone, Copy, PartialEq, Eq)]
pub enum Standing {
    Absent,
    Running,
    Failed,
    InRescue,
}

// The shared words but for the era matrix. The cells of client c are the sixteen from 16 times c on, each a byte: the
// slot's number, or 255. A client's log is none, or what it wrote.
#[derive(Clone, Copy)]
pub struct Block {
    pub headers: [u64; SLOTS],
    pub cells: [u8; ALL_CELLS],
    pub logs: [Option<Entry>; CLIENTS],
    pub standings: [Standing; CLIENTS],
}

// The words of a block, lent to be read.
#[derive(Clone, Copy)]
pub struct Words<'a> {
    pub headers: &'a [u64],
    pub cells: &'a [u8],
    pub logs: &'a [Option<Entry>],
    pub standings: &'a [Standing],
}

impl Block {
    // Its words, lent.
    pub fn lend(&self) -> Words<'_>
        ensures { lent result ≡ self.now }
    {
        Words {
            headers: &self.headers,
            cells: &self.cells,
            logs: &self.logs,
            standings: &self.standings,
        }
    }
}

// The block before the first call.
#[tactic(auto, unfolding(crate::specs::Block::fresh_block))]
pub fn fresh_block() -> Block
    ensures { result ≡ fresh_block }
{
    Block {
        headers: [0; SLOTS],
        cells: [EMPTY; ALL_CELLS],
        logs: [None; CLIENTS],
        standings: [Standing::Absent; CLIENTS],
    }
}

// The word at a place; past the last one, what a fresh block holds there.
pub fn word_at<T: Copy + Drop>(words: &[T], place: usize, fresh: T) -> T
    ensures { result ≡ get_or words.now place fresh }
{
    words.get(place).copied().unwrap_or(fresh)
}

// The header of a slot.
pub fn header_at(headers: &[u64], slot: Slot) -> u64
    ensures { result ≡ header_at headers.now slot.0 }
{
    word_at(headers, slot.0 as usize, 0)
}

// What a cell's byte says. No `From`: neither a byte nor an Option is a type of this crate.
pub fn cell_in(byte: u8) -> Option<Slot>
    ensures { result ≡ cell_in byte }
{
    if byte == EMPTY {
        None
    } else {
        Some(Slot(byte))
    }
}

// Where a client's cell lies among the cells.
fn cell_index(client: Client, cell: u8) -> usize
    ensures { result ≡ cell_index client.0 cell }
{
    client.0 as usize * CELLS + cell as usize
}

// What a client's cell holds.
pub fn cell_at(cells: &[u8], client: Client, cell: u8) -> Option<Slot>
    ensures { result ≡ cell_at cells.now client.0 cell }
{
    if CELLS <= cell as usize {
        return None;
    }
    cell_in(word_at(cells, cell_index(client, cell), EMPTY))
}

// A client's log.
pub fn log_at(logs: &[Option<Entry>], client: Client) -> Option<Entry>
    ensures { result ≡ log_at logs.now client.0 }
{
    word_at(logs, client.0 as usize, None)
}

// A client's standing.
pub fn standing_at(standings: &[Standing], client: Client) -> Standing
    ensures { result ≡ standing_at standings.now client.0 }
{
    word_at(standings, client.0 as usize, Standing::Absent)
}
