// A client's working record and the six stages of an operation, one a step. Client and rescuer share them: a rescuer
// takes them with the number of the client that it acts for. A stage is a function of the few words that it reads;
// what it writes is the store that it answers with.
#![tactic(auto)]

pub mod perform;

ghost use Rattle.std.specs.Prelude.{◌≡◌};
ghost use Rattle.stages.specs.Stages.{step_of, is_release, written, open_in, kept_in, is_idle};

use block::matrix::{Matrix, Row, own_era, seen_era};
use block::store::Store;
use block::{Block, Kind, Operation, header_at};
use header::unpack;
use numbers::answers::Answer;
use numbers::{Client, Slot};

// The stage that an operation has reached, with the operation and, past the load, the header that it keeps.
#[derive(Clone, Copy, PartialEq, Eq)]
pub enum Stage {
    Idle,
    Load(Operation),
    Note(Operation, u64),
    Log(Operation, u64),
    Swap(Operation, u64),
    Cell(Operation, u64),
    Era(Operation, u64),
}

// What a client keeps to itself between two steps.
#[derive(Clone, Copy, PartialEq, Eq)]
pub struct ClientRecord {
    pub stage: Stage,
}

// What a step or a call answers, the record that it hands back and the one word that it writes.
#[derive(Clone, Copy, PartialEq, Eq)]
pub struct Outcome<R> {
    pub answer: Answer,
    pub next: R,
    pub store: Store,
}

impl<R: Drop> Outcome<R> {
    // The same outcome, with another record handed back.
    pub fn handing<S>(self, next: S) -> Outcome<S>
        ensures { result ≡ record { answer = self.answer; next = next; store = self.store } }
    {
        Outcome {
            answer: self.answer,
            next,
            store: self.store,
        }
    }
}

impl ClientRecord {
    // One step of client `me`, given the block and beside it the matrix. With nothing under way it is refused.
    pub fn step(self, me: Client, block: Block, eras: Matrix) -> Outcome<ClientRecord>
        ensures { result ≡ step_of me block.headers eras self.stage }
    {
        self.step_lent(me, &block.headers, &eras)
    }

    // The same step of words that are lent. A match and no closure: the stage's cases hold what is kept (R9.2).
    #[tactic(auto, unfolding(crate::specs::Stages::step_of))]
    pub fn step_lent<'a>(
        self,
        me: Client,
        headers: &'a [u64],
        eras: &'a [Row],
    ) -> Outcome<ClientRecord>
        ensures { result ≡ step_of me headers.now eras.now self.stage }
    {
        match self.stage {
            Stage::Idle => perform::nothing_under_way(),
            Stage::Load(op) => perform::load(op, header_at(headers, op.slot)),
            Stage::Note(op, kept) => {
                perform::note(me, op, kept, seen_era(eras, me, unpack(kept).client))
            }
            Stage::Log(op, kept) => perform::log_entry(me, op, kept, own_era(eras, me)),
            Stage::Swap(op, kept) => perform::swap(
                me,
                op,
                kept,
                own_era(eras, me),
                header_at(headers, op.slot),
            ),
            Stage::Cell(op, kept) => perform::write_cell(me, op, kept),
            Stage::Era(_, _) => perform::raise_era(me, own_era(eras, me)),
        }
    }

    // The operation that is under way.
    pub fn open(self) -> Option<Operation>
        ensures { result ≡ open_in self.stage }
    {
        match self.stage {
            Stage::Idle => None,
            Stage::Load(op)
            | Stage::Note(op, _)
            | Stage::Log(op, _)
            | Stage::Swap(op, _)
            | Stage::Cell(op, _)
            | Stage::Era(op, _) => Some(op),
        }
    }

    // The header that is kept.
    pub fn kept(self) -> Option<u64>
        ensures { result ≡ kept_in self.stage }
    {
        match self.stage {
            Stage::Idle | Stage::Load(_) => None,
            Stage::Note(_, word)
            | Stage::Log(_, word)
            | Stage::Swap(_, word)
            | Stage::Cell(_, word)
            | Stage::Era(_, word) => Some(word),
        }
    }

    // Whether nothing is under way.
    pub fn is_idle(self) -> bool
        ensures { result ≡ is_idle self }
    {
        self.open().is_none()
    }
}

// Whether an operation lets go of its slot.
pub fn is_release(kind: Kind) -> bool
    ensures { result ≡ is_release kind }
{
    matches!(kind, Kind::Release)
}

// What the cell stage of `op` writes: the slot, or nothing for a release.
#[tactic(auto, unfolding(crate::specs::Stages::written))]
pub fn written(op: Operation) -> Option<Slot>
    ensures { result ≡ written op }
{
    match op.kind {
        Kind::Release => None,
        Kind::Lease | Kind::Attach => Some(op.slot),
    }
}
