// The one word that a step writes, and the shared words after it. That a step changes exactly the words named for it
// is what this type says: a store names one word. A write past the last word changes nothing.
ghost use Rattle.std.specs.Prelude.{◌≡◌, set};
ghost use Rattle.block.specs.Store.{block_after, headers_after, cells_after, logs_after, standings_after, eras_after, cells_with, with_era, byte_of};

use crate::matrix::{Matrix, Row};
use crate::{Block, EMPTY, Entry, Standing, cell_index};
use numbers::{CELLS, Client, Era, Slot};

// What a step writes: nothing, a slot's header, a client's cell, its log, the era of one client in the row of
// another (in its own row: the own era), or a client's standing.
#[derive(Clone, Copy, PartialEq, Eq)]
pub enum Store {
    Nothing,
    Header(Slot, u64),
    Cell(Client, u8, Option<Slot>),
    Log(Client, Entry),
    Era(Client, Client, Era),
    Standing(Client, Standing),
}

// The block after a store.
pub fn block_after(store: Store, block: Block) -> Block
    ensures { result ≡ block_after store block }
{
    let mut next = block;
    next.put(store);
    next
}

impl Block {
    // A store put in place.
    pub fn put(&mut self, store: Store)
        ensures { self.new ≡ block_after store self.old }
    {
        put(
            store,
            &mut self.headers,
            &mut self.cells,
            &mut self.logs,
            &mut self.standings,
        );
    }
}

// The era matrix after a store.
pub fn eras_after(store: Store, eras: Matrix) -> Matrix
    ensures { result ≡ eras_after store eras }
{
    let mut next = eras;
    put_era(store, &mut next);
    next
}

// A store put in place, into the words of a block wherever they lie.
pub fn put<'a>(
    store: Store,
    headers: &'a mut [u64],
    cells: &'a mut [u8],
    logs: &'a mut [Option<Entry>],
    standings: &'a mut [Standing],
)
    ensures in_headers { headers.new ≡ headers_after store headers.old }
    ensures in_cells { cells.new ≡ cells_after store cells.old }
    ensures in_logs { logs.new ≡ logs_after store logs.old }
    ensures in_standings { standings.new ≡ standings_after store standings.old }
{
    match store {
        Store::Header(slot, word) => write(headers, slot.0 as usize, word),
        Store::Cell(client, cell, held) => write_cell(cells, client, cell, held),
        Store::Log(client, entry) => write(logs, client.0 as usize, Some(entry)),
        Store::Standing(client, standing) => write(standings, client.0 as usize, standing),
        Store::Nothing | Store::Era(_, _, _) => {}
    }
}

// A store put in place, into the rows of the era matrix.
pub fn put_era(store: Store, eras: &mut [Row])
    ensures { eras.new ≡ eras_after store eras.old }
{
    if let Store::Era(by, of, era) = store {
        write_era(eras, by, of, era);
    }
}

// One word written.
pub fn write<T: Drop>(words: &mut [T], place: usize, word: T)
    ensures { words.new ≡ set words.old place word }
{
    if place < words.len() {
        words[place] = word;
    }
}

// The byte of what a cell holds. No `From`, as for `cell_in`.
pub fn byte_of(held: Option<Slot>) -> u8
    ensures { result ≡ byte_of held }
{
    match held {
        None => EMPTY,
        Some(slot) => slot.0,
    }
}

// A client's cell written.
fn write_cell(cells: &mut [u8], client: Client, cell: u8, held: Option<Slot>)
    ensures { cells.new ≡ cells_with cells.old client.0 cell held }
{
    if (cell as usize) < CELLS {
        write(cells, cell_index(client, cell), byte_of(held));
    }
}

// The era of one client written in the row of another.
fn write_era(eras: &mut [Row], by: Client, of: Client, era: Era)
    ensures { eras.new ≡ with_era eras.old by.0 of.0 era }
{
    let at = by.0 as usize;
    if at < eras.len() {
        write(&mut eras[at], of.0 as usize, era.0);
    }
}
