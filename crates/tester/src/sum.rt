// What a section's runs came to.
use crate::agree::Difference;
use crate::choices::{Choices, Picks};
use crate::endings::{Ending, Endings};
use crate::placement::Section;
use crate::run::Run;
use block::header_at;
use header::unpack;

// The first run that differs in one way: the picks that it made.
#[derive(Clone, Copy)]
pub(crate) struct First {
    pub(crate) differs: Difference,
    pub(crate) picks: Picks,
}

// The endings, how many runs and calls there were and how many runs differ, whether a run was too long to be gone
// through, and the first run of each way of differing.
#[derive(Clone, Copy)]
pub(crate) struct Sum {
    pub(crate) endings: Endings,
    pub(crate) runs: u64,
    pub(crate) calls: u64,
    pub(crate) differing: u64,
    pub(crate) cut: bool,
    pub(crate) firsts: [Option<First>; Difference::ALL.len()],
}

// One run more. Past 2^32 the number starts over: that is what is printed, and it may not change.
fn one_more(runs: u64) -> u64 {
    runs % 4294967296 + 1
}

// How a run ended, with the count of the slot that is swept.
fn ending_of(run: &Run, section: &Section) -> Ending {
    Ending {
        steps: run.progress.steps,
        completed: run.progress.completed,
        count: unpack(header_at(&run.scene.block.headers, section.slot)).count,
        era: run.scene.own_era(section.plan.victim()).0,
    }
}

impl Sum {
    // No run yet.
    pub(crate) fn new() -> Sum {
        Sum {
            endings: Endings::new(),
            runs: 0,
            calls: 0,
            differing: 0,
            cut: false,
            firsts: [None; Difference::ALL.len()],
        }
    }

    // Keeps the first run of its way of differing.
    fn keep(&mut self, differs: Difference, choices: &Choices) {
        for place in &mut self.firsts {
            match place {
                Some(first) if first.differs == differs => return,
                Some(_) => {}
                None => {
                    let picks = choices.picks();
                    *place = Some(First { differs, picks });
                    return;
                }
            }
        }
    }

    // One run more, which has made those choices.
    pub(crate) fn add(&mut self, run: &Run, choices: &Choices, section: &Section) {
        self.runs = one_more(self.runs);
        self.calls = self.calls.saturating_add(run.calls);
        self.cut = self.cut || choices.is_full();
        if let Some(differs) = run.differs {
            self.differing = one_more(self.differing);
            return self.keep(differs, choices);
        }
        self.endings
            .add(ending_of(run, section), run.progress.rescue_steps)
    }
}
