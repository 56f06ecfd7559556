// The one shared word that a call wrote, in numbers: which it is, its old value and its new one.
use crate::doing::operation_numbers;
use crate::scene::Scene;
use block::matrix::seen_era;
use block::store::{Store, byte_of};
use block::{Entry, cell_at, header_at, log_at, standing_at};
use header::unpack;
use numbers::{Client, Slot};

// A word's value: a header's era, count and client; a cell's slot, 255 where it is empty; a log's kind, era, cell, slot
// and count; an era; a standing, 0 absent, 1 running, 2 failed, 3 in rescue. What a word does not have is 0.
pub(crate) type Value = [u64; 5];

// Which word: a slot's header, a client's cell, its log, an entry of its row, its standing.
#[derive(Clone, Copy)]
pub(crate) enum Word {
    Header(Slot),
    Cell(Client, u8),
    Log(Client),
    Era(Client, Client),
    Standing(Client),
}

// A header's value.
pub(crate) fn header_value(word: u64) -> Value {
    let fields = unpack(word);
    [
        fields.era.0 as u64,
        fields.count as u64,
        fields.client.0 as u64,
        0,
        0,
    ]
}

// A written log's value.
fn entry_value(entry: Entry) -> Value {
    let [kind, cell, slot] = operation_numbers(Some(entry.operation));
    [kind, entry.era.0 as u64, cell, slot, entry.count as u64]
}

// The word that a store names.
pub(crate) fn word_of(store: Store) -> Option<Word> {
    match store {
        Store::Nothing => None,
        Store::Header(slot, _) => Some(Word::Header(slot)),
        Store::Cell(client, cell, _) => Some(Word::Cell(client, cell)),
        Store::Log(client, _) => Some(Word::Log(client)),
        Store::Era(by, of, _) => Some(Word::Era(by, of)),
        Store::Standing(client, _) => Some(Word::Standing(client)),
    }
}

impl Word {
    // The numbers that are printed: which sort of word, whose, and which of those.
    pub(crate) fn numbers(self) -> [u64; 3] {
        match self {
            Word::Header(slot) => [1, slot.0 as u64, 0],
            Word::Cell(client, cell) => [2, client.0 as u64, cell as u64],
            Word::Log(client) => [3, client.0 as u64, 0],
            Word::Era(by, of) => [4, by.0 as u64, of.0 as u64],
            Word::Standing(client) => [5, client.0 as u64, 0],
        }
    }

    // What stands in it.
    pub(crate) fn value(self, scene: &Scene) -> Value {
        let block = &scene.block;
        let single = match self {
            Word::Header(slot) => return header_value(header_at(&block.headers, slot)),
            Word::Log(client) => return log_at(&block.logs, client).map_or([0; 5], entry_value),
            Word::Cell(client, cell) => byte_of(cell_at(&block.cells, client, cell)) as u64,
            Word::Era(by, of) => seen_era(&scene.eras, by, of).0 as u64,
            Word::Standing(client) => standing_at(&block.standings, client) as u64,
        };
        [single, 0, 0, 0, 0]
    }
}
