// The call that only reads: which slot a cell shows.
#![tactic(auto)]

ghost use Rattle.std.specs.Prelude.{◌≡◌};
ghost use Rattle.stages.specs.Stages.{releases_cell};
ghost use Rattle.calls.specs.Checks.{let_through};
ghost use Rattle.calls.specs.Calls.{shown, looked, asks_to_look_up, shows_cell, look_up_of};

use block::{Operation, Standing, cell_at};
use calls::{Caller, Records, check, settled, unchanged};
use numbers::answers::Answer;
use numbers::{Slot, checked_cell};
use stages::{ClientRecord, Outcome, is_release};

// Whether the operation that is under way releases cell `k`.
fn releases_cell(k: u8, doing: Option<Operation>) -> bool
    ensures { result ≡ releases_cell k doing }
{
    doing.is_some_and(|op| is_release(op.kind) && op.cell == k)
}

// What a cell shows.
fn shown(held: Option<Slot>) -> Answer
    ensures { result ≡ shown held }
{
    held.map_or(Answer::ShowsNothing, Answer::Shows)
}

// What a look up of cell `k`, which holds `held`, answers.
#[tactic(auto, unfolding(calls::specs::Calls::looked))]
fn looked(client: ClientRecord, held: Option<Slot>, k: u8) -> Answer
    ensures { result ≡ looked client.stage held k }
{
    if releases_cell(k, client.open()) {
        Answer::ShowsNothing
    } else {
        shown(held)
    }
}

// A look up of what a running client's cell shows.
fn show(by: Caller, cell: u64, cells: &[u8]) -> Result<Outcome<Records>, Answer>
    ensures { result
        ≡ let_through (asks_to_look_up cell by.found) (shows_cell by.me.0 cell cells.now by.records) }
{
    let k = checked_cell(cell)?;
    check(by.found == Standing::Running, Answer::WrongStanding)?;
    let answer = looked(by.records.client, cell_at(cells, by.me, k), k);
    Ok(unchanged(answer, by.records))
}

// 11 look up: 200 + the slot in the cell, or 199 where it is empty or its release is under way.
#[tactic(auto, using(calls::proofs::LetThrough::settles))]
pub fn look_up(by: Caller, cell: u64, cells: &[u8]) -> Outcome<Records>
    ensures { result ≡ look_up_of by.me.0 cell by.found cells.now by.records }
{
    settled(by.records, show(by, cell, cells))
}
