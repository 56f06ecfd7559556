// How the runs of a sweep ended: runs that ended alike are counted together, in the order in which they first came.

// How many endings are told apart; a later one is counted with the last of them.
const MOST: usize = 64;

// How a run ended: the victim's steps, whether the rescue completed its operation, the count and the own era.
#[derive(Clone, Copy, PartialEq, Eq)]
pub(crate) struct Ending {
    pub(crate) steps: u64,
    pub(crate) completed: bool,
    pub(crate) count: u32,
    pub(crate) era: u32,
}

// The runs that ended alike: how many, and the least and the most rescue steps among them.
#[derive(Clone, Copy)]
pub(crate) struct Alike {
    pub(crate) ending: Ending,
    pub(crate) runs: u64,
    pub(crate) least: u64,
    pub(crate) most: u64,
}

// The endings so far, from the front.
#[derive(Clone, Copy)]
pub(crate) struct Endings {
    pub(crate) all: [Option<Alike>; MOST],
}

impl Alike {
    // The first run that ended so.
    fn first(ending: Ending, steps: u64) -> Alike {
        Alike {
            ending,
            runs: 1,
            least: steps,
            most: steps,
        }
    }

    // One run more, of so many rescue steps.
    fn add(&mut self, steps: u64) {
        self.runs = self.runs.saturating_add(1);
        self.least = self.least.min(steps);
        self.most = self.most.max(steps);
    }
}

impl Endings {
    // No run yet.
    pub(crate) fn new() -> Endings {
        Endings { all: [None; MOST] }
    }

    // The place of an ending: its own so far, else the next one, else the last.
    fn place(&self, ending: Ending) -> usize {
        let place = self
            .all
            .iter()
            .position(|alike| alike.is_none_or(|alike| alike.ending == ending));
        place.unwrap_or(MOST - 1)
    }

    // One run more that ended so.
    pub(crate) fn add(&mut self, ending: Ending, steps: u64) {
        let at = self.place(ending);
        match self.all.get_mut(at) {
            Some(Some(alike)) => alike.add(steps),
            Some(place) => *place = Some(Alike::first(ending, steps)),
            None => {}
        }
    }
}

#[cfg(test)]
mod tests {
    use super::*;

    // An ending for each count.
    fn ending(count: u32) -> Ending {
        Ending {
            steps: 6,
            completed: true,
            count,
            era: 1,
        }
    }

    #[test]
    fn endings_past_the_most_are_counted_with_the_last(rt: HostRuntime) {
        let mut endings = Endings::new();
        for count in (0..66).chain([63, 5]) {
            endings.add(ending(count), u64::from(count));
        }
        assert_eq!(rt; endings.all.iter().flatten().count(), MOST);
        assert_eq!(rt;
            endings.all[MOST - 1].map(|alike| (alike.runs, alike.least, alike.most)),
            Some((4, 63, 65))
        );
        assert_eq!(rt; endings.all[5].map(|alike| alike.runs), Some(2));
    }
}
