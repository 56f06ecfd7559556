// The six stages of an operation in their order, each performed by a function of the words that it reads. Client,
// operation and kept header stay three parameters: a struct of them would be made for one call and taken apart in it.
ghost use Rattle.std.specs.Prelude.{◌≡◌, ◌<◌};
ghost use Rattle.stages.specs.Stages.{went, asked_by, load_stage, note_stage, log_stage, swap_stage, cell_stage, era_stage, count_after};

use crate::{ClientRecord, Outcome, Stage, written};
use block::store::Store;
use block::{Entry, Kind, Operation};
use header::{Fields, is_free, pack, unpack};
use numbers::answers::Answer;
use numbers::{Client, Era};

// The outcome of a step. Not one function with that of `rescue`: each step would have to make its record first.
fn went(answer: Answer, stage: Stage, store: Store) -> Outcome<ClientRecord>
    ensures { result ≡ went answer stage store }
{
    Outcome {
        answer,
        next: ClientRecord { stage },
        store,
    }
}

// A step with nothing under way.
pub fn nothing_under_way() -> Outcome<ClientRecord>
    ensures { result ≡ went Answer.WrongMoment Stage.Idle Store.Nothing }
{
    went(Answer::WrongMoment, Stage::Idle, Store::Nothing)
}

// What a load asks of the header that it finds: a lease that the slot is free, an attach that it is not, a release
// nothing. The error is the answer that ends the operation.
fn asks(kind: Kind, header: u64) -> Result<(), Answer>
    ensures { result ≡ asked_by kind header }
{
    match kind {
        Kind::Lease if !is_free(header) => Err(Answer::SlotHeld),
        Kind::Attach if is_free(header) => Err(Answer::SlotFree),
        Kind::Lease | Kind::Attach | Kind::Release => Ok(()),
    }
}

// 1. Load: keeps the slot's header, or ends the operation with what it is refused with.
#[tactic(auto, unfolding(crate::specs::Stages::load_stage))]
pub fn load(op: Operation, header: u64) -> Outcome<ClientRecord>
    ensures { result ≡ load_stage op header }
{
    match asks(op.kind, header) {
        Ok(()) => went(Answer::Accepted, Stage::Note(op, header), Store::Nothing),
        Err(answer) => went(answer, Stage::Idle, Store::Nothing),
    }
}

// 2. Note: raises what the own row has seen of the header's client to the header's era.
#[tactic(auto, unfolding(crate::specs::Stages::note_stage))]
pub fn note(me: Client, op: Operation, kept: u64, seen: Era) -> Outcome<ClientRecord>
    ensures { result ≡ note_stage me op kept seen }
{
    let Fields { era, client, .. } = unpack(kept);
    let store = if seen < era {
        Store::Era(me, client, era)
    } else {
        Store::Nothing
    };
    went(Answer::Accepted, Stage::Log(op, kept), store)
}

// 3. Log: writes the operation, the own era and the count read.
#[tactic(auto, unfolding(crate::specs::Stages::log_stage))]
pub fn log_entry(me: Client, op: Operation, kept: u64, own: Era) -> Outcome<ClientRecord>
    ensures { result ≡ log_stage me op kept own }
{
    let entry = Entry {
        operation: op,
        era: own,
        count: unpack(kept).count,
    };
    went(
        Answer::Accepted,
        Stage::Swap(op, kept),
        Store::Log(me, entry),
    )
}

// 4. Swap: writes the slot's header where it still is the whole kept word, else goes back to the load.
#[tactic(auto, using(header::proofs::Laws::unpacked_narrow), unfolding(crate::specs::Stages::swap_stage))]
pub fn swap(me: Client, op: Operation, kept: u64, own: Era, header: u64) -> Outcome<ClientRecord>
    ensures { result ≡ swap_stage me op kept own header }
{
    if header == kept {
        let fields = Fields {
            era: own,
            count: count_after(op.kind, unpack(kept).count),
            client: me,
        };
        went(
            Answer::Accepted,
            Stage::Cell(op, kept),
            Store::Header(op.slot, pack(fields)),
        )
    } else {
        went(Answer::SwapLost, Stage::Load(op), Store::Nothing)
    }
}

// The count that a won swap writes: 1 for a lease, one more for an attach, one less for a release.
fn count_after(kind: Kind, count: u32) -> u32
    requires { count < 65536 }
    ensures { result ≡ count_after kind count }
{
    match kind {
        Kind::Lease => 1,
        Kind::Attach => count + 1,
        Kind::Release => count.saturating_sub(1),
    }
}

// 5. Cell: writes the slot, or empties the cell for a release.
#[tactic(auto, unfolding(crate::specs::Stages::cell_stage))]
pub fn write_cell(me: Client, op: Operation, kept: u64) -> Outcome<ClientRecord>
    ensures { result ≡ cell_stage me op kept }
{
    went(
        Answer::Accepted,
        Stage::Era(op, kept),
        Store::Cell(me, op.cell, written(op)),
    )
}

// 6. Era: raises the own era; the operation is finished.
#[tactic(auto, unfolding(crate::specs::Stages::era_stage))]
pub fn raise_era(me: Client, own: Era) -> Outcome<ClientRecord>
    ensures { result ≡ era_stage me own }
{
    went(
        Answer::Finished,
        Stage::Idle,
        Store::Era(me, me, own.raise()),
    )
}
