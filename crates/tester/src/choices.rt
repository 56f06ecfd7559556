// The choices of one run: where more than one actor could come next, which of them came. Runs differ in their choices
// only, so going through all choices is going through all placements. Two runs share their calls up to the first choice
// that they make differently: the run before each choice is kept, and the next run goes on from there.
//
// A sweep asks for no memory while it runs, so it cannot be refused any: what is kept stands in arrays of Options, filled
// from the front.
use crate::run::Run;

// How many choices of a run are kept; after those it takes the first of everything.
const MOST: usize = 96;

// A choice: the run before it, which pick was made, and out of how many.
#[derive(Clone, Copy)]
pub(crate) struct Choice {
    pub(crate) before: Run,
    pub(crate) pick: usize,
    width: usize,
}

// The picks of a run's choices.
pub(crate) type Picks = [Option<usize>; MOST];

// The choices that the run has made.
#[derive(Clone, Copy)]
pub(crate) struct Choices {
    made: [Option<Choice>; MOST],
}

impl Choice {
    // The pick that comes after the one that was made.
    fn other_pick(&self) -> Option<usize> {
        let pick = self.pick.checked_add(1)?;
        (pick < self.width).then_some(pick)
    }
}

impl Choices {
    // No choice yet.
    pub(crate) fn new() -> Choices {
        Choices { made: [None; MOST] }
    }

    // Whether the run had more choices than are kept: then not every placement was gone through.
    pub(crate) fn is_full(&self) -> bool {
        self.made.iter().all(|choice| choice.is_some())
    }

    // Keeps a choice out of `width` that the run makes next, its first pick, where there is a place left.
    pub(crate) fn add(&mut self, before: &Run, width: usize) {
        for place in &mut self.made {
            if place.is_none() {
                *place = Some(Choice {
                    before: *before,
                    pick: 0,
                    width,
                });
                return;
            }
        }
    }

    // The picks that were made.
    pub(crate) fn picks(&self) -> Picks {
        let mut picks = [None; MOST];
        for (pick, choice) in picks.iter_mut().zip(&self.made) {
            *pick = choice.map(|choice| choice.pick);
        }
        picks
    }

    // Goes back to the last choice that has a pick left and makes that; nothing where there is none.
    pub(crate) fn go_back(&mut self) -> Option<Choice> {
        for place in self.made.iter_mut().rev() {
            let Some(choice) = place else {
                continue;
            };
            if let Some(pick) = choice.other_pick() {
                choice.pick = pick;
                return Some(*choice);
            }
            *place = None;
        }
        None
    }
}
