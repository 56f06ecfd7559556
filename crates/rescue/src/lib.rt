// The rescue of a failed client, one step a call. The rescuer acts as that client, with its number, era, row and log,
// and is given nothing but shared words and the record that its own last step handed back.
#![tactic(auto)]

pub mod conditions;
pub mod search;

ghost use Rattle.std.specs.Prelude.{◌≡◌};
ghost use Rattle.block.specs.Block.{header_at, log_at};
ghost use Rattle.block.specs.Matrix.{seen_era, own_era};
ghost use Rattle.rescue.specs.Rescue.{went, rescue_of, read_log, first_condition, second_condition, write_cell, raise_era, searched, as_rescue};

use block::matrix::{Matrix, Row, own_era, seen_era};
use block::store::Store;
use block::{Block, Entry, Kind, Operation, Standing, Words, header_at, log_at};
use numbers::answers::Answer;
use numbers::{Client, Era, Slot};
use search::lowest_full;
use stages::{ClientRecord, Outcome, Stage, written};

// The step that a rescue has reached, with what it keeps for it: the log that it read, the client whose row comes
// next in condition 2, the release that it has opened.
#[derive(Clone, Copy, PartialEq, Eq)]
pub enum RescuerStep {
    ReadLog,
    Condition1(Entry),
    Condition2(Entry, Client),
    Cell(Entry),
    Era,
    Search,
    Release(ClientRecord),
}

// What a rescuer keeps to itself between two steps.
#[derive(Clone, Copy, PartialEq, Eq)]
pub struct RescuerRecord {
    pub step: RescuerStep,
}

impl RescuerRecord {
    // One step of the rescue of client `c`, given the block and beside it the matrix.
    pub fn step(self, c: Client, block: Block, eras: Matrix) -> Outcome<RescuerRecord>
        ensures { result ≡ rescue_of c block.headers block.cells (log_at block.logs c.0) eras self.step }
    {
        self.step_lent(c, block.lend(), &eras)
    }

    // The same step of words that are lent. A match, and no closure kept in its place: a step's cases hold what it keeps.
    #[tactic(auto, unfolding(crate::specs::Rescue::rescue_of, stages::specs::Stages::step_of))]
    pub fn step_lent<'a>(
        self,
        c: Client,
        words: Words<'a>,
        eras: &'a [Row],
    ) -> Outcome<RescuerRecord>
        ensures { result
            ≡ rescue_of c words.entry.headers.now words.entry.cells.now (log_at words.entry.logs.now c.0) eras.now
            self.step }
    {
        match self.step {
            RescuerStep::ReadLog => read_log(log_at(words.logs, c)),
            RescuerStep::Condition1(entry) => conditions::first(
                c,
                entry,
                own_era(eras, c),
                header_at(words.headers, entry.operation.slot),
            ),
            RescuerStep::Condition2(entry, j) => {
                conditions::second(c, entry, j, own_era(eras, c), seen_era(eras, j, c))
            }
            RescuerStep::Cell(entry) => write_cell(c, entry),
            RescuerStep::Era => raise_era(c, own_era(eras, c)),
            RescuerStep::Search => searched(c, lowest_full(words.cells, c)),
            RescuerStep::Release(record) => as_rescue(record.step_lent(c, words.headers, eras)),
        }
    }
}

// The outcome of a rescue step. Not one function with that of `stages`: each step would have to make its record first.
fn went(answer: Answer, step: RescuerStep, store: Store) -> Outcome<RescuerRecord>
    ensures { result ≡ went answer step store }
{
    Outcome {
        answer,
        next: RescuerRecord { step },
        store,
    }
}

// 1. Keeps the client's log; where there is none, goes to the search.
pub fn read_log(log: Option<Entry>) -> Outcome<RescuerRecord>
    ensures { result ≡ read_log log }
{
    let step = match log {
        None => RescuerStep::Search,
        Some(entry) => RescuerStep::Condition1(entry),
    };
    went(Answer::Accepted, step, Store::Nothing)
}

// 4. Cell: writes what the logged operation would have written.
#[tactic(auto, unfolding(crate::specs::Rescue::write_cell))]
pub fn write_cell(c: Client, entry: Entry) -> Outcome<RescuerRecord>
    ensures { result ≡ write_cell c entry }
{
    let op = entry.operation;
    went(
        Answer::Accepted,
        RescuerStep::Era,
        Store::Cell(c, op.cell, written(op)),
    )
}

// 5. Raises the client's own era.
#[tactic(auto, unfolding(crate::specs::Rescue::raise_era))]
pub fn raise_era(c: Client, own: Era) -> Outcome<RescuerRecord>
    ensures { result ≡ raise_era c own }
{
    went(
        Answer::Accepted,
        RescuerStep::Search,
        Store::Era(c, c, own.raise()),
    )
}

// 6. Opens the release of the lowest full cell; where there is none, the client is absent and the rescue finished.
pub fn searched(c: Client, found: Option<(u8, Slot)>) -> Outcome<RescuerRecord>
    ensures { result ≡ searched c found }
{
    let Some((cell, slot)) = found else {
        let absent = Store::Standing(c, Standing::Absent);
        return went(Answer::Finished, RescuerStep::ReadLog, absent);
    };
    let kind = Kind::Release;
    let stage = Stage::Load(Operation { kind, cell, slot });
    went(
        Answer::Accepted,
        RescuerStep::Release(ClientRecord { stage }),
        Store::Nothing,
    )
}

// 6. A stage of the opened release, as a rescue step: the sixth answers 0 and goes back to the search.
pub fn as_rescue(stepped: Outcome<ClientRecord>) -> Outcome<RescuerRecord>
    ensures { result ≡ as_rescue stepped }
{
    let Outcome {
        answer,
        next,
        store,
    } = stepped;
    if next.is_idle() {
        went(Answer::Accepted, RescuerStep::Search, store)
    } else {
        went(answer, RescuerStep::Release(next), store)
    }
}
