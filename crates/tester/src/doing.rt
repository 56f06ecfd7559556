// What a call performs: a stage of the client, or a step of the rescue, which may be a stage of the release that the
// rescuer has opened.
ghost use Rattle.std.specs.Prelude.{◌≤◌};

use block::Operation;
use calls::{Act, Call, Records};
use numbers::Client;
use numbers::answers::Answer;
use rescue::RescuerStep;
use stages::{ClientRecord, Outcome, Stage};

// A step: the client's record that says which stage, or the rescuer's step.
#[derive(Clone, Copy)]
pub(crate) enum Doing {
    Client(ClientRecord),
    Rescuer(RescuerStep),
}

// A stage's number, 0 where nothing is under way.
fn stage_number(record: ClientRecord) -> u64
    ensures { result ≤ 6 }
{
    match record.stage {
        Stage::Idle => 0,
        Stage::Load(_) => 1,
        Stage::Note(_, _) => 2,
        Stage::Log(_, _) => 3,
        Stage::Swap(_, _) => 4,
        Stage::Cell(_, _) => 5,
        Stage::Era(_, _) => 6,
    }
}

// What is printed of an operation: its kind (1 lease, 2 attach, 3 release), cell and slot; 0 where there is none.
pub(crate) fn operation_numbers(op: Option<Operation>) -> [u64; 3] {
    op.map_or([0; 3], |op| {
        [op.kind as u64 + 1, op.cell as u64, op.slot.0 as u64]
    })
}

impl Doing {
    // The number that is printed: 1 to 6 a stage of the client, 11 to 16 a step of the rescue, 21 to 26 a stage of the
    // release that the rescuer has opened; 0 of a client with nothing under way.
    pub(crate) fn number(self) -> u64 {
        match self {
            Doing::Client(record) => stage_number(record),
            Doing::Rescuer(RescuerStep::ReadLog) => 11,
            Doing::Rescuer(RescuerStep::Condition1(_)) => 12,
            Doing::Rescuer(RescuerStep::Condition2(_, _)) => 13,
            Doing::Rescuer(RescuerStep::Cell(_)) => 14,
            Doing::Rescuer(RescuerStep::Era) => 15,
            Doing::Rescuer(RescuerStep::Search) => 16,
            Doing::Rescuer(RescuerStep::Release(record)) => 20 + stage_number(record),
        }
    }

    // The client whose row condition 2 reads.
    pub(crate) fn row(self) -> Option<Client> {
        match self {
            Doing::Rescuer(RescuerStep::Condition2(_, row)) => Some(row),
            _ => None,
        }
    }

    // The operation that it is a step of.
    pub(crate) fn operation(self) -> Option<Operation> {
        match self {
            Doing::Client(record) | Doing::Rescuer(RescuerStep::Release(record)) => record.open(),
            Doing::Rescuer(RescuerStep::Condition1(entry))
            | Doing::Rescuer(RescuerStep::Condition2(entry, _))
            | Doing::Rescuer(RescuerStep::Cell(entry)) => Some(entry.operation),
            Doing::Rescuer(_) => None,
        }
    }
}

// Whether an answer says that the step was performed: no refusal before it.
fn was_performed(answer: Answer) -> bool {
    matches!(
        answer,
        Answer::Accepted | Answer::SlotHeld | Answer::SlotFree | Answer::Finished | Answer::SwapLost
    )
}

// A call that was played: the records that it was given, and its outcome.
#[derive(Clone, Copy)]
pub(crate) struct Played {
    pub(crate) call: Call,
    pub(crate) given: Records,
    pub(crate) outcome: Outcome<Records>,
}

impl Played {
    // What it performed.
    pub(crate) fn performed(&self) -> Option<Doing> {
        match self.call.act {
            Act::Step => Some(Doing::Client(self.given.client)),
            Act::RescueStep => Some(Doing::Rescuer(self.given.rescuer.step)),
            _ => None,
        }
        .filter(|_| was_performed(self.outcome.answer))
    }
}
