// The ledger that a run is held to, kept from the history alone: a won lease or attach swap enters a line, the won
// release swap strikes it out. It reads no count and no cell. A line stands at 16 times its client plus its cell.
use crate::doing::{Doing, Played};
use block::store::Store;
use block::{ALL_CELLS, Kind, Operation};
use calls::{Act, Call};
use numbers::answers::Answer;
use numbers::{CELLS, CLIENTS, Era, Slot};
use stages::{ClientRecord, Stage};

// How far a line is, with the number that is printed: its swap was won, its cell is written, its release is open.
#[derive(Clone, Copy, PartialEq, Eq)]
pub(crate) enum Phase {
    Swapped = 0,
    Written = 1,
    Releasing = 2,
}

// A line: the slot that it names, and how far it is.
#[derive(Clone, Copy, PartialEq, Eq)]
pub(crate) struct Line {
    pub(crate) slot: Slot,
    pub(crate) phase: Phase,
}

// The lines of all cells, and for each client that failed the own era that the end of its rescue must leave. 0 and no
// Option for one that did not: a rescue that a given block ends is held to it, as it always was.
#[derive(Clone, Copy)]
pub(crate) struct Ledger {
    pub(crate) lines: [Option<Line>; ALL_CELLS],
    pub(crate) due: [Era; CLIENTS],
}

impl From<Phase> for u64 {
    fn from(phase: Phase) -> u64 {
        phase as u64
    }
}

impl Line {
    // Whether a look up shows it.
    pub(crate) fn is_written(self) -> bool {
        self.phase == Phase::Written
    }
}

// Whether a client that fails there has won the swap of its operation and not yet raised its era.
fn is_past_swap(record: ClientRecord) -> bool {
    matches!(record.stage, Stage::Cell(_, _) | Stage::Era(_, _))
}

impl Ledger {
    // No line.
    pub(crate) fn new() -> Ledger {
        Ledger {
            lines: [None; ALL_CELLS],
            due: [Era(0); CLIENTS],
        }
    }

    // The line of a client's cell.
    fn line(&mut self, client: u64, cell: u64) -> Option<&mut Option<Line>> {
        let lines = self.lines.chunks_exact_mut(CELLS).nth(client as usize)?;
        lines.get_mut(cell as usize)
    }

    // Turns a line to another phase.
    fn turn(&mut self, client: u64, cell: u64, phase: Phase) {
        if let Some(Some(line)) = self.line(client, cell) {
            line.phase = phase;
        }
    }

    // After a swap that was won for a client: a release strikes out its line where that names its slot, another
    // operation enters one.
    fn won(&mut self, client: u64, op: Operation) {
        let Some(line) = self.line(client, op.cell as u64) else {
            return;
        };
        *line = match op.kind {
            Kind::Release => line.filter(|line| line.slot != op.slot),
            Kind::Lease | Kind::Attach => Some(Line {
                slot: op.slot,
                phase: Phase::Swapped,
            }),
        };
    }

    // The own era that is due where the client fails: one more where its operation stands past its won swap.
    fn failed(&mut self, client: u64, record: ClientRecord, era: Era) {
        if let Some(due) = self.due.get_mut(client as usize) {
            *due = if is_past_swap(record) {
                era.raise()
            } else {
                era
            };
        }
    }

    // One more is due after a swap that the rescuer won for the client.
    fn rescued(&mut self, client: u64) {
        if let Some(due) = self.due.get_mut(client as usize) {
            *due = due.raise();
        }
    }

    // After a call that performed a step.
    fn keep_step(&mut self, client: u64, doing: Doing, store: Store) {
        let Some(op) = doing.operation() else {
            return;
        };
        match (store, doing) {
            (Store::Header(_, _), Doing::Client(_)) => self.won(client, op),
            (Store::Header(_, _), Doing::Rescuer(_)) => {
                self.won(client, op);
                self.rescued(client);
            }
            (Store::Cell(_, _, _), Doing::Client(_)) => {
                self.turn(client, op.cell as u64, Phase::Written)
            }
            _ => {}
        }
    }

    // After an accepted call that is no step, of a client with that record and own era.
    fn keep_opening(&mut self, call: Call, record: ClientRecord, era: Era) {
        match call.act {
            Act::Release(cell) => self.turn(call.client, cell, Phase::Releasing),
            Act::Fail => self.failed(call.client, record, era),
            _ => {}
        }
    }

    // After a call that was played, of a client whose own era was that before it.
    pub(crate) fn keep(&mut self, played: &Played, era: Era) {
        let call = played.call;
        if let Some(doing) = played.performed() {
            self.keep_step(call.client, doing, played.outcome.store);
        } else if played.outcome.answer == Answer::Accepted {
            self.keep_opening(call, played.given.client, era);
        }
    }
}
