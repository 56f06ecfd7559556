// A run of the sweep: one placement, played call by call through the proved machine and held to the ledger after each.
use crate::agree::{Difference, held_to};
use crate::doing::Doing;
use crate::placement::{Actor, Actors, Progress, Section};
use crate::scene::Scene;
use calls::{Act, Call};
use numbers::answers::Answer;

// Where a run stands: its world, who has played, how many calls it has made, and how the last left the ledger.
#[derive(Clone, Copy)]
pub(crate) struct Run {
    pub(crate) scene: Scene,
    pub(crate) progress: Progress,
    pub(crate) calls: u64,
    pub(crate) differs: Option<Difference>,
}

impl Run {
    // Before the first call.
    pub(crate) fn new(scene: Scene) -> Run {
        Run {
            scene,
            progress: Progress::new(),
            calls: 0,
            differs: None,
        }
    }

    // Plays a call and holds the world to the ledger: what the call answers, and what it performed. The end of any
    // rescue, also of one in the set-up, is taken for the end of the victim's, as it always was.
    pub(crate) fn play(&mut self, call: Call, victim: u64) -> (Answer, Option<Doing>) {
        let played = self.scene.play(call);
        let answer = played.outcome.answer;
        let ended = call.act == Act::RescueStep && answer == Answer::Finished;
        self.differs = held_to(&self.scene, ended.then_some(victim)).err();
        self.calls = self.calls.saturating_add(1);
        (answer, played.performed())
    }

    // Who may make the next call; nobody where the run differs from its ledger.
    pub(crate) fn actors(&self, section: &Section) -> Actors {
        match self.differs {
            Some(_) => Actors::NOBODY,
            None => self.progress.actors(section),
        }
    }

    // Plays the next call of an actor, and hands it back.
    pub(crate) fn turn(&mut self, actor: Actor, section: &Section) -> Call {
        let call = self.progress.call(actor, section);
        let (answer, doing) = self.play(call, section.plan.victim());
        self.progress = self.progress.after(actor, answer, doing);
        call
    }
}
