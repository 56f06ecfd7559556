// The limits of the private words: a client's record and its rescuer's.
ghost use Rattle.std.specs.Prelude.{◌≡◌, ◌&&◌};
ghost use Rattle.stages.specs.Stages.{open_release, releases};
ghost use Rattle.limits.specs.Limits.{open_within, kept_within, stage_within, rescue_within};

use crate::block_words::{entry_within, header_within, operation_within};
use block::Operation;
use numbers::CLIENTS;
use rescue::RescuerStep;
use stages::{ClientRecord, is_release};

// Whether the operation that is under way is within the limits.
fn open_within(doing: Option<Operation>) -> bool
    ensures { result ≡ open_within doing }
{
    doing.is_none_or(operation_within)
}

// Whether the header that is kept is within the limits.
fn kept_within(kept: Option<u64>) -> bool
    ensures { result ≡ kept_within kept }
{
    kept.is_none_or(header_within)
}

// Whether a working record is within its limits.
#[tactic(auto, unfolding(limits::specs::Limits::stage_within))]
pub(crate) fn stage_within(record: ClientRecord) -> bool
    ensures { result ≡ stage_within «record».stage }
{
    open_within(record.open()) && kept_within(record.kept())
}

// Whether an operation that is open is a release.
fn open_release(doing: Option<Operation>) -> bool
    ensures { result ≡ open_release doing }
{
    doing.is_some_and(|op| is_release(op.kind))
}

// Whether a rescuer's opened operation is a release, and within the limits.
fn release_within(record: ClientRecord) -> bool
    ensures { result ≡ (releases «record».stage && stage_within «record».stage) }
{
    open_release(record.open()) && stage_within(record)
}

// Whether a step of the rescuer of client `c` is within its limits.
#[tactic(auto, unfolding(limits::specs::Limits::rescue_within))]
pub(crate) fn rescue_within(c: u64, step: RescuerStep) -> bool
    ensures { result ≡ rescue_within c step }
{
    match step {
        RescuerStep::ReadLog | RescuerStep::Era | RescuerStep::Search => true,
        RescuerStep::Condition1(entry) | RescuerStep::Cell(entry) => entry_within(entry),
        RescuerStep::Condition2(entry, j) => {
            entry_within(entry) && (j.0 as usize) < CLIENTS && j.0 as u64 != c
        }
        RescuerStep::Release(record) => release_within(record),
    }
}
