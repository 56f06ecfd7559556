// The limits of the shared words: headers, cells, logs, and the rows of the era matrix.
ghost use Rattle.std.specs.Prelude.{◌≡◌, ℕ, leb};
ghost use Rattle.std.specs.List.{list_all};
ghost use Rattle.numbers.specs.Sizes.{era_limit};
ghost use Rattle.limits.specs.Limits.{header_within, cell_within, operation_within, entry_within, log_within, row_within, eras_within};

use block::matrix::{Matrix, Row};
use block::{Entry, Operation, cell_in};
use header::{spare, unpack};
use numbers::{CELLS, CLIENTS, COUNT_LIMIT, ERA_LIMIT, Era, SLOTS};

// Whether a header is within its limits.
#[tactic(auto, unfolding(limits::specs::Limits::header_within))]
pub(crate) fn header_within(word: u64) -> bool
    ensures { result ≡ header_within word }
{
    let fields = unpack(word);
    spare(word) == 0
        && (fields.client.0 as usize) < CLIENTS
        && fields.count <= COUNT_LIMIT
        && fields.era <= ERA_LIMIT
}

// Whether every header is. Headers, cells and logs have a function each: in one expression their proof did not close.
pub(crate) fn headers_within(headers: &[u64]) -> bool
    ensures { result ≡ list_all header_within headers.now }
{
    headers.iter().all(|word| header_within(*word))
}

// Whether a cell's byte is within its limits.
fn cell_within(byte: u8) -> bool
    ensures { result ≡ cell_within byte }
{
    cell_in(byte).is_none_or(|slot| (slot.0 as usize) < SLOTS)
}

// Whether every cell is.
pub(crate) fn cells_within(cells: &[u8]) -> bool
    ensures { result ≡ list_all cell_within cells.now }
{
    cells.iter().all(|byte| cell_within(*byte))
}

// Whether an operation is within its limits.
pub(crate) fn operation_within(op: Operation) -> bool
    ensures { result ≡ operation_within op }
{
    (op.cell as usize) < CELLS && (op.slot.0 as usize) < SLOTS
}

// Whether a written log is within its limits.
#[tactic(auto, unfolding(limits::specs::Limits::entry_within))]
pub(crate) fn entry_within(entry: Entry) -> bool
    ensures { result ≡ entry_within entry }
{
    operation_within(entry.operation) && entry.count <= COUNT_LIMIT && entry.era <= ERA_LIMIT
}

// Whether a log is within its limits.
fn log_within(log: Option<Entry>) -> bool
    ensures { result ≡ log_within log }
{
    log.is_none_or(entry_within)
}

// Whether every log is.
pub(crate) fn logs_within(logs: &[Option<Entry>]) -> bool
    ensures { result ≡ list_all log_within logs.now }
{
    logs.iter().all(|log| log_within(*log))
}

// Whether row `i` of the matrix is within its limits.
#[tactic(auto, unfolding(limits::specs::Limits::row_within))]
fn row_within(i: usize, row: Row) -> bool
    ensures { result ≡ row_within i row }
{
    i < CLIENTS && row[i] != 0 && entries_within(&row)
}

// Whether no entry of a row is above the era limit.
fn entries_within(row: &[u32]) -> bool
    ensures { result ≡ list_all (λ (e : ℕ). leb e era_limit) row.now }
{
    row.iter().all(|entry| Era(*entry) <= ERA_LIMIT)
}

// Whether every row is.
pub(crate) fn eras_within(eras: Matrix) -> bool
    ensures { result ≡ eras_within eras }
{
    eras.iter().enumerate().all(|(i, row)| row_within(i, *row))
}
