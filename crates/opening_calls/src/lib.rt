// The calls that open an operation, at its load: lease, attach, release. Each is a function of the words that it reads;
// its checks stand in the order of the rules' table, and the first that does not pass is the answer.
#![tactic(auto)]

ghost use Rattle.std.specs.Prelude.{◌≡◌};
ghost use Rattle.calls.specs.Checks.{let_through};
ghost use Rattle.calls.specs.Calls.{opened, asks_to_open, asks_to_release, release_opened, open_of, release_of};

use block::store::Store;
use block::{Kind, Operation, Standing, cell_at};
use calls::{Caller, Records, accepted, check, settled};
use numbers::answers::Answer;
use numbers::{ERA_STOP, Era, Slot, checked_cell};
use stages::{ClientRecord, Outcome, Stage};

// The record of an operation just opened, beside the rescuer's as it was.
fn opened(kind: Kind, cell: u8, slot: Slot, records: Records) -> Outcome<Records>
    ensures { result ≡ opened kind cell slot records }
{
    let stage = Stage::Load(Operation { kind, cell, slot });
    let client = ClientRecord { stage };
    accepted(Records { client, ..records }, Store::Nothing)
}

// Lease and attach: of a slot, into an empty cell of a client whose own era is `own`.
fn open(
    kind: Kind,
    by: Caller,
    cell: u64,
    slot: u64,
    cells: &[u8],
    own: Era,
) -> Result<Outcome<Records>, Answer>
    ensures { result
        ≡ let_through (asks_to_open by.me.0 cell slot by.found cells.now own by.records)
        (opened kind cell (record { 0 = slot }) by.records) }
{
    let k = checked_cell(cell)?;
    let s = Slot::try_from(slot)?;
    check(by.found == Standing::Running, Answer::WrongStanding)?;
    check(by.records.client.is_idle(), Answer::WrongMoment)?;
    check(cell_at(cells, by.me, k).is_none(), Answer::WrongCell)?;
    check(own < ERA_STOP, Answer::AtEraStop)?;
    Ok(opened(kind, k, s, by.records))
}

// 3 lease. Apart from attach, so that each says which kind it opens (edit attach_that_opens_a_lease).
#[tactic(auto, using(calls::proofs::LetThrough::opens))]
pub fn lease(by: Caller, cell: u64, slot: u64, cells: &[u8], own: Era) -> Outcome<Records>
    ensures { result ≡ open_of Kind.Lease by.me.0 cell slot by.found cells.now own by.records }
{
    settled(by.records, open(Kind::Lease, by, cell, slot, cells, own))
}

// 4 attach.
#[tactic(auto, using(calls::proofs::LetThrough::opens))]
pub fn attach(by: Caller, cell: u64, slot: u64, cells: &[u8], own: Era) -> Outcome<Records>
    ensures { result ≡ open_of Kind.Attach by.me.0 cell slot by.found cells.now own by.records }
{
    settled(by.records, open(Kind::Attach, by, cell, slot, cells, own))
}

// Release: of the slot that the cell holds now.
fn open_release(by: Caller, cell: u64, cells: &[u8]) -> Result<Outcome<Records>, Answer>
    ensures { result
        ≡ let_through (asks_to_release by.me.0 cell by.found cells.now by.records)
        (release_opened by.me.0 cell cells.now by.records) }
{
    let k = checked_cell(cell)?;
    check(by.found == Standing::Running, Answer::WrongStanding)?;
    check(by.records.client.is_idle(), Answer::WrongMoment)?;
    let s = cell_at(cells, by.me, k).ok_or(Answer::WrongCell)?;
    Ok(opened(Kind::Release, k, s, by.records))
}

// 5 release.
#[tactic(auto, using(calls::proofs::LetThrough::settles))]
pub fn release(by: Caller, cell: u64, cells: &[u8]) -> Outcome<Records>
    ensures { result ≡ release_of by.me.0 cell by.found cells.now by.records }
{
    settled(by.records, open_release(by, cell, cells))
}
