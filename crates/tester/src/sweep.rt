// The sweep: every placement of the deaths and of the other host's operation that a section allows, each a run on a
// fresh block through the proved machine, held to the ledger after every call. The views make the table of its numbers.
use crate::acts::{record_numbers, swept_call};
use crate::agree::Difference;
use crate::choices::{Choices, Picks};
use crate::endings::Alike;
use crate::placement::{Other, Plan, Section};
use crate::print::Numbers;
use crate::run::Run;
use crate::scene::Scene;
use crate::sum::Sum;
use calls::{Act, Call};
use input::read_full;
use numbers::Slot;
use numbers::answers::Answer;
use std::io;
use std::io::Read;

// How many calls of a run that differs are told after its set-up's; no run that ends has as many.
const MOST_TOLD: usize = 5000;

// Says on standard error how far the sweep is, now and then; a sweep that is not heard goes on.
fn tell_progress(rt: &impl Eprint, runs: u64) {
    if runs % 65536 == 0 {
        let _ = eprintln!(rt; "sweep: {runs} runs of this section so far");
    }
}

// The run of the set-up's calls, each given to `tell`; it ends where it differs from its ledger.
fn set_up_run<F: FnMut(Call) -> io::Result<()>>(plan: &Plan, mut tell: F) -> io::Result<Run>
    requires { F.IsAlwaysCallable tell }
{
    let mut run = Run::new(plan.begin);
    for record in plan.set_up {
        if run.differs.is_some() {
            break;
        }
        let call = swept_call(*record);
        run.play(call, plan.victim());
        tell(call)?;
    }
    Ok(run)
}

// Every run of a section, from the run of the set-up on.
fn swept(rt: &impl Eprint, section: &Section) -> io::Result<Sum> {
    let mut sum = Sum::new();
    let mut choices = Choices::new();
    let mut run = set_up_run(section.plan, |_| Ok(()))?;
    let mut pick = 0;
    // A bound, since `rt.forever()` would be a `Wait`.
    for _ in 0..u64::MAX {
        let actors = run.actors(section);
        if let Some(actor) = actors.at(pick) {
            if pick == 0 && 1 < actors.width() {
                choices.add(&run, actors.width());
            }
            run.turn(actor, section);
            pick = 0;
            continue;
        }
        sum.add(&run, &choices, section);
        tell_progress(rt, sum.runs);
        let Some(choice) = choices.go_back() else {
            break;
        };
        run = choice.before;
        pick = choice.pick;
    }
    Ok(sum)
}

// A section's line: how many rescuers may die, in how many parts the other host plays, runs, calls, runs that differ,
// and whether a run was too long to be gone through.
fn print_section(rt: &impl Print, section: &Section, sum: &Sum) -> io::Result<()> {
    let numbers = [
        section.kills,
        section.parts(),
        sum.runs,
        sum.calls,
        sum.differing,
        u64::from(sum.cut),
    ];
    println!(rt; "section{}", Numbers(&numbers))
}

// An ending's line: the victim's steps, whether it was completed, the count, the own era, runs, least and most steps.
fn print_ending(rt: &impl Print, alike: &Alike) -> io::Result<()> {
    let ending = alike.ending;
    let numbers = [
        ending.steps,
        u64::from(ending.completed),
        u64::from(ending.count),
        u64::from(ending.era),
        alike.runs,
        alike.least,
        alike.most,
    ];
    println!(rt; "ending{}", Numbers(&numbers))
}

// A call as a record's four numbers.
fn print_record(rt: &impl Print, call: Call) -> io::Result<()> {
    println!(rt; "record{}", Numbers(&record_numbers(call)))
}

// The calls of a run that made those picks, up to the one after which it differs.
fn print_run(rt: &impl Print, section: &Section, picks: &Picks) -> io::Result<()> {
    let mut run = set_up_run(section.plan, |call| print_record(rt, call))?;
    let mut picks = picks.iter().flatten();
    for _ in 0..MOST_TOLD {
        let actors = run.actors(section);
        let picked = if 1 < actors.width() {
            picks.next()
        } else {
            None
        };
        let Some(actor) = actors.at(picked.copied().unwrap_or(0)) else {
            break;
        };
        print_record(rt, run.turn(actor, section))?;
    }
    Ok(())
}

// The first run that differs in one way, where there is one, as a trace to replay.
fn print_first(
    rt: &impl Print,
    section: &Section,
    sum: &Sum,
    differs: Difference,
) -> io::Result<()> {
    let Some(first) = sum
        .firsts
        .iter()
        .flatten()
        .find(|first| first.differs == differs)
    else {
        return Ok(());
    };
    let numbers = [u64::from(differs), section.kills, section.parts()];
    println!(rt; "differs{}", Numbers(&numbers))?;
    print_run(rt, section, &first.picks)
}

// Sweeps a section and prints what came of it.
fn sweep_section(rt: &(impl Print + Eprint), section: &Section) -> io::Result<()> {
    let sum = swept(rt, section)?;
    print_section(rt, section, &sum)?;
    for alike in sum.endings.all.iter().flatten() {
        print_ending(rt, alike)?;
    }
    for differs in Difference::ALL {
        print_first(rt, section, &sum, differs)?;
    }
    Ok(())
}

// The slot of an opening that is accepted; of a release, the slot in its cell. Another call has slot 0 and no Option: that
// slot's count is what a sweep of it has always told.
fn slot_of(call: Call, scene: &Scene) -> Slot {
    let cell = match call.act {
        Act::Lease(_, slot) | Act::Attach(_, slot) => {
            return Slot::try_from(slot).unwrap_or(Slot(0));
        }
        Act::Release(cell) => cell,
        _ => return Slot(0),
    };
    let shown = scene.answer(Call {
        client: call.client,
        act: Act::LookUp(cell),
    });
    match shown {
        Answer::Shows(slot) => slot,
        _ => Slot(0),
    }
}

// Every section: deaths alone, and then with the other host.
fn sweep_sections(rt: &(impl Print + Eprint), plan: &Plan, slot: Slot) -> io::Result<()> {
    let alone = Section {
        plan,
        slot,
        kills: 0,
        other: None,
    };
    for kills in 0..3 {
        sweep_section(rt, &Section { kills, ..alone })?;
    }
    let Some(opening) = plan.other else {
        return Ok(());
    };
    for (kills, parts) in [(0, 100), (1, 2), (2, 1)] {
        let other = Some(Other { opening, parts });
        let section = Section {
            kills,
            other,
            ..alone
        };
        sweep_section(rt, &section)?;
    }
    Ok(())
}

// What a call is refused with in a world.
fn refusal(scene: &Scene, call: Call) -> Option<Answer> {
    let answer = scene.answer(call);
    (answer != Answer::Accepted).then_some(answer)
}

// Sweeps a plan, where the world after the set-up accepts both openings; else a line says whose is refused, the victim's
// (1) or the other host's (2), and with what.
fn sweep_plan(rt: &(impl Print + Eprint), plan: &Plan) -> io::Result<()> {
    let mut scene = plan.begin;
    for record in plan.set_up {
        scene.play(swept_call(*record));
    }
    for (whose, opening) in [(1, Some(plan.opening)), (2, plan.other)] {
        if let Some(answer) = opening.and_then(|call| refusal(&scene, call)) {
            return println!(rt; "refused{}", Numbers(&[whose, answer.number()]));
        }
    }
    sweep_sections(rt, plan, slot_of(plan.opening, &scene))
}

// Reads the victim's opening, the other host's (call 0: none) and the set-up from standard input, and sweeps, each run
// from the world that it is given.
pub(crate) fn sweep(
    rt: &(impl Print + Eprint),
    input: &mut impl Read,
    begin: Scene,
) -> io::Result<()> {
    let mut bytes = [0u8; 4096];
    let n = read_full(input, &mut bytes)?;
    let (records, _) = bytes[..n].as_chunks::<4>();
    let [opening, other, set_up @ ..] = records else {
        return Ok(());
    };
    let plan = Plan {
        begin,
        set_up,
        opening: swept_call(*opening),
        other: (other[0] != 0).then_some(swept_call(*other)),
    };
    sweep_plan(rt, &plan)
}
