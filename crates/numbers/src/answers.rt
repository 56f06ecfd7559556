// What a call or a step answers, and the number that the rules give each answer.
ghost use Rattle.std.specs.Prelude.{◌≡◌};
ghost use Rattle.numbers.specs.Answers.{number_of};

use crate::Slot;

#[derive(Clone, Copy, PartialEq, Eq)]
pub enum Answer {
    Accepted,
    NoSuchClient,
    NoSuchCell,
    NoSuchSlot,
    WrongStanding,
    WrongMoment,
    WrongCell,
    SlotHeld,
    SlotFree,
    AtEraStop,
    StillHolding,
    BeyondLimits,
    NoSuchCall,
    CutRecord,
    Finished,
    SwapLost,
    ShowsNothing,
    Shows(Slot),
}

impl Answer {
    // The answer's number. Named, and no `From`: `u64::from(answer)` would not say that it is the number of the rules.
    pub fn number(self) -> u64
        ensures { result ≡ number_of self }
    {
        match self {
            Answer::Accepted => 0,
            Answer::NoSuchClient => 1,
            Answer::NoSuchCell => 2,
            Answer::NoSuchSlot => 3,
            Answer::WrongStanding => 4,
            Answer::WrongMoment => 5,
            Answer::WrongCell => 6,
            Answer::SlotHeld => 7,
            Answer::SlotFree => 8,
            Answer::AtEraStop => 9,
            Answer::StillHolding => 10,
            Answer::BeyondLimits => 11,
            Answer::NoSuchCall => 12,
            Answer::CutRecord => 13,
            Answer::Finished => 100,
            Answer::SwapLost => 101,
            Answer::ShowsNothing => 199,
            Answer::Shows(slot) => 200 + slot.0 as u64,
        }
    }
}
