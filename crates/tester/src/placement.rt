// Who comes next in a run of the sweep. After the set-up the victim opens its operation and is killed after any of its
// steps; then its rescue runs to the end, and meanwhile the rescuer and its successor may be killed after any of their
// steps, and another host may play its own operation, in so many parts as the section allows.
use crate::acts::Record;
use crate::doing::Doing;
use crate::scene::Scene;
use calls::{Act, Call};
use numbers::Slot;
use numbers::answers::Answer;
use rescue::RescuerStep;

// What is swept: the world that every run begins in, the set-up's records, the opening calls of the victim and of the
// other host.
#[derive(Clone, Copy)]
pub(crate) struct Plan<'a> {
    pub(crate) begin: Scene,
    pub(crate) set_up: &'a [Record],
    pub(crate) opening: Call,
    pub(crate) other: Option<Call>,
}

// The other host's operation: its opening call, and in how many parts it may be played.
#[derive(Clone, Copy)]
pub(crate) struct Other {
    pub(crate) opening: Call,
    pub(crate) parts: u64,
}

// What a section plays of a plan: the slot whose count is told, how many rescuers may be killed, and the other host's
// operation.
#[derive(Clone, Copy)]
pub(crate) struct Section<'a> {
    pub(crate) plan: &'a Plan<'a>,
    pub(crate) slot: Slot,
    pub(crate) kills: u64,
    pub(crate) other: Option<Other>,
}

// Who makes the next call; the other host with its opening call.
#[derive(Clone, Copy)]
pub(crate) enum Actor {
    Victim,
    Death,
    Rescuer,
    Other(Call),
    RescuerDeath,
}

// Those who may make the next call, in the order of the picks.
#[derive(Clone, Copy)]
pub(crate) struct Actors([Option<Actor>; 5]);

// Where an operation or a rescue stands.
#[derive(Clone, Copy, PartialEq, Eq)]
enum Moment {
    Ahead,
    UnderWay,
    Over,
}

// How far a run has come after its set-up: the victim's operation, its rescue, the other host's operation.
#[derive(Clone, Copy)]
pub(crate) struct Progress {
    victim: Moment,
    dead: bool,
    pub(crate) steps: u64,
    rescue: Moment,
    pub(crate) rescue_steps: u64,
    pub(crate) completed: bool,
    releasing: bool,
    kills: u64,
    other: Moment,
    other_last: bool,
    parts: u64,
}

impl Plan<'_> {
    // The client that is killed.
    pub(crate) fn victim(&self) -> u64 {
        self.opening.client
    }
}

impl Section<'_> {
    // In how many parts the other host plays; 0 where it does not.
    pub(crate) fn parts(&self) -> u64 {
        self.other.map_or(0, |other| other.parts)
    }

    // What is asked of the victim, or of its rescuer.
    fn of_victim(&self, act: Act) -> Call {
        Call {
            client: self.plan.victim(),
            act,
        }
    }
}

impl Actors {
    // Nobody: the run is over.
    pub(crate) const NOBODY: Actors = Actors([None; 5]);

    // Out of how many the next call is chosen.
    pub(crate) fn width(&self) -> usize {
        self.0.iter().flatten().count()
    }

    // The one that a pick names.
    pub(crate) fn at(&self, pick: usize) -> Option<Actor> {
        self.0.iter().flatten().nth(pick).copied()
    }
}

impl Moment {
    // Where an operation stands after a call of it that was answered so.
    fn after(answer: Answer) -> Moment {
        match answer {
            Answer::Finished | Answer::SlotHeld | Answer::SlotFree => Moment::Over,
            _ => Moment::UnderWay,
        }
    }

    // The next call of the operation that a call opens.
    fn call(self, opening: Call) -> Call {
        match self {
            Moment::Ahead => opening,
            Moment::UnderWay | Moment::Over => Call {
                client: opening.client,
                act: Act::Step,
            },
        }
    }
}

impl Progress {
    // Before the victim's opening.
    pub(crate) fn new() -> Progress {
        Progress {
            victim: Moment::Ahead,
            dead: false,
            steps: 0,
            rescue: Moment::Ahead,
            rescue_steps: 0,
            completed: false,
            releasing: false,
            kills: 0,
            other: Moment::Ahead,
            other_last: false,
            parts: 0,
        }
    }

    // Whether the other host may play: the victim is dead, its own operation is not over, and this goes on a part or
    // begins one of those that are allowed. After the rescue's end it plays what is left.
    fn other_may(&self, other: Other) -> bool {
        let begins = self.other_last || self.rescue == Moment::Over || self.parts < other.parts;
        self.dead && self.other != Moment::Over && begins
    }

    // Whether the rescuer may be killed.
    fn rescuer_may_die(&self, section: &Section) -> bool {
        self.rescue == Moment::UnderWay && self.kills < section.kills
    }

    // Who may make the next call: the victim, or its death once it is under way; after that the rescuer, then the other
    // host, then the rescuer's death.
    pub(crate) fn actors(&self, section: &Section) -> Actors {
        let other = section.other.filter(|other| self.other_may(*other));
        Actors([
            (!self.dead && self.victim != Moment::Over).then_some(Actor::Victim),
            (!self.dead && self.victim != Moment::Ahead).then_some(Actor::Death),
            (self.dead && self.rescue != Moment::Over).then_some(Actor::Rescuer),
            other.map(|other| Actor::Other(other.opening)),
            self.rescuer_may_die(section).then_some(Actor::RescuerDeath),
        ])
    }

    // The call that an actor makes.
    pub(crate) fn call(&self, actor: Actor, section: &Section) -> Call {
        match actor {
            Actor::Victim => self.victim.call(section.plan.opening),
            Actor::Death => section.of_victim(Act::Fail),
            Actor::Rescuer if self.rescue == Moment::UnderWay => section.of_victim(Act::RescueStep),
            Actor::Rescuer => section.of_victim(Act::TakeOver),
            Actor::RescuerDeath => section.of_victim(Act::RescuerFails),
            Actor::Other(opening) => self.other.call(opening),
        }
    }

    // After a call of an actor that was answered so and performed that.
    pub(crate) fn after(self, actor: Actor, answer: Answer, doing: Option<Doing>) -> Progress {
        match actor {
            Actor::Victim => self.victim_played(answer),
            Actor::Death => Progress { dead: true, ..self },
            Actor::Rescuer => self.rescuer_played(answer, doing),
            Actor::RescuerDeath => self.rescuer_died(),
            Actor::Other(_) => self.other_played(answer),
        }
    }

    // After a call of the victim.
    fn victim_played(self, answer: Answer) -> Progress {
        let stepped = u64::from(self.victim == Moment::UnderWay);
        Progress {
            victim: Moment::after(answer),
            steps: self.steps.saturating_add(stepped),
            ..self
        }
    }

    // After a take over or a rescue step. What a rescuer completes before any of them has opened a release is the
    // victim's own operation.
    fn rescuer_played(self, answer: Answer, doing: Option<Doing>) -> Progress {
        let stepped = u64::from(self.rescue == Moment::UnderWay);
        let completes = matches!(doing, Some(Doing::Rescuer(RescuerStep::Era)));
        let releases = matches!(doing, Some(Doing::Rescuer(RescuerStep::Release(_))));
        Progress {
            rescue: Moment::after(answer),
            rescue_steps: self.rescue_steps.saturating_add(stepped),
            completed: self.completed || (completes && !self.releasing),
            releasing: self.releasing || releases,
            other_last: false,
            ..self
        }
    }

    // After the rescuer's death.
    fn rescuer_died(self) -> Progress {
        Progress {
            rescue: Moment::Ahead,
            kills: self.kills.saturating_add(1),
            other_last: false,
            ..self
        }
    }

    // After a call of the other host.
    fn other_played(self, answer: Answer) -> Progress {
        let begun = u64::from(!self.other_last);
        Progress {
            other: Moment::after(answer),
            other_last: true,
            parts: self.parts.saturating_add(begun),
            ..self
        }
    }
}
