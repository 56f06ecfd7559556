// Whether a world agrees with its ledger, part by part as demand 3 has it.
use crate::ledger::Line;
use crate::scene::Scene;
use block::cell_in;
use calls::{Act, Call};
use header::unpack;
use numbers::answers::Answer;
use numbers::{CELLS, SLOTS};

// Where a world first differs from its ledger, with the number that is printed.
#[derive(Clone, Copy, PartialEq, Eq)]
pub(crate) enum Difference {
    Count = 1,
    LookUp = 2,
    RescueEnd = 3,
}

impl Difference {
    // Every way of differing, in the order of their numbers.
    pub(crate) const ALL: [Difference; 3] = [
        Difference::Count,
        Difference::LookUp,
        Difference::RescueEnd,
    ];
}

impl From<Difference> for u64 {
    fn from(difference: Difference) -> u64 {
        difference as u64
    }
}

// How many lines name each slot.
pub(crate) fn tally(lines: &[Option<Line>]) -> [u8; SLOTS] {
    let mut counts = [0u8; SLOTS];
    for line in lines.iter().flatten() {
        if let Some(count) = counts.get_mut(line.slot.0 as usize) {
            *count = count.saturating_add(1);
        }
    }
    counts
}

// (a) Each slot's count is the number of lines that name it.
fn counts_agree(scene: &Scene) -> bool {
    let counts = tally(&scene.ledger.lines);
    let mut slots = scene.block.headers.iter().zip(&counts);
    slots.all(|(header, lines)| unpack(*header).count == u32::from(*lines))
}

// What the ledger has a look up answer.
fn due_answer(line: Option<Line>) -> Answer {
    match line {
        Some(line) if line.is_written() => Answer::Shows(line.slot),
        _ => Answer::ShowsNothing,
    }
}

// (b) A look up of a cell, by its place among all, answers what the ledger has; one of a client that does not run is
// refused, and says nothing.
fn shows(scene: &Scene, place: usize, line: Option<Line>) -> bool {
    let answer = scene.answer(Call {
        client: (place / CELLS) as u64,
        act: Act::LookUp((place % CELLS) as u64),
    });
    answer == Answer::WrongStanding || answer == due_answer(line)
}

// (b) Every look up shows what the ledger has. Where neither has anything there is nothing to ask.
fn look_ups_agree(scene: &Scene) -> bool {
    let cells = scene.block.cells.iter().zip(&scene.ledger.lines);
    cells.enumerate().all(|(place, (byte, line))| {
        (cell_in(*byte).is_none() && line.is_none()) || shows(scene, place, *line)
    })
}

// (c), (d) The end of a rescue leaves no entry, no line, and the own era that was due: raised once for each won swap.
fn end_agrees(scene: &Scene, client: u64) -> bool {
    let cells = scene.block.cells.chunks_exact(CELLS);
    let lines = scene.ledger.lines.chunks_exact(CELLS);
    let mut clients = cells.zip(lines).zip(&scene.ledger.due);
    let Some(((cells, lines), due)) = clients.nth(client as usize) else {
        return true;
    };
    cells.iter().all(|byte| cell_in(*byte).is_none())
        && lines.iter().all(|line| line.is_none())
        && scene.own_era(client) == *due
}

// A part of the agreement: the way of differing where it does not hold.
fn held(agrees: bool, difference: Difference) -> Result<(), Difference> {
    if agrees { Ok(()) } else { Err(difference) }
}

// Whether a world agrees with its ledger after a call; `rescued` is the client whose rescue that call finished.
pub(crate) fn held_to(scene: &Scene, rescued: Option<u64>) -> Result<(), Difference> {
    held(counts_agree(scene), Difference::Count)?;
    held(look_ups_agree(scene), Difference::LookUp)?;
    let ends = rescued.is_none_or(|client| end_agrees(scene, client));
    held(ends, Difference::RescueEnd)
}
