// Watching a file of calls: for each call a line of numbers that says what it performed, the one word that it wrote and
// what it answered; after the last, the slots, the ledger, the clients and the cells. The views put them into words.
use crate::acts::Record;
use crate::agree::tally;
use crate::doing::{Doing, Played, operation_numbers};
use crate::print::Numbers;
use crate::scene::Scene;
use crate::words::{header_value, word_of};
use block::store::Store;
use block::{Operation, Standing, cell_in, standing_at};
use calls::{Act, Records};
use decode::decode;
use input::read_full;
use numbers::answers::Answer;
use numbers::{CELLS, Client, Era};
use rescue::RescuerStep;
use std::io;
use std::io::Read;

// What the rest of a call's line says where nothing was performed and no word was written.
const NOTHING: [u64; 19] = [0; 19];

// The start of a call's line: its place, its four bytes and its answer.
fn print_call(rt: &impl Print, place: u64, record: Record, answer: Answer) -> io::Result<()> {
    let [call, client, cell, slot] = record.map(u64::from);
    let numbers = [place, call, client, cell, slot, answer.number()];
    print!(rt; "call{}", Numbers(&numbers))
}

// What comes next for the client or its rescuer; nothing where the call finished it.
fn next_step(played: &Played) -> Option<Doing> {
    let next = played.outcome.next;
    match (played.outcome.answer, played.call.act) {
        (Answer::Finished, _) => None,
        (_, Act::RescueStep) => Some(Doing::Rescuer(next.rescuer.step)),
        _ => Some(Doing::Client(next.client)),
    }
}

// The operation that a call performed a step of; of a search, the release that it opened.
fn told_operation(played: &Played) -> Option<Operation> {
    match played.performed()? {
        Doing::Rescuer(RescuerStep::Search) => {
            Doing::Rescuer(played.outcome.next.rescuer.step).operation()
        }
        doing => doing.operation(),
    }
}

// What a call performed, what comes next, the row that was read, and the operation that it is a step of.
fn print_doing(rt: &impl Print, played: &Played) -> io::Result<()> {
    let doing = played.performed();
    let [kind, cell, slot] = operation_numbers(told_operation(played));
    let step = doing.map_or(0, Doing::number);
    let next = next_step(played).map_or(0, Doing::number);
    let row = doing.and_then(Doing::row).map_or(0, |row| row.0 as u64);
    print!(rt; "{}", Numbers(&[step, next, row, kind, cell, slot]))
}

// The word that a store writes, with its old and its new value.
fn print_store(rt: &impl Print, store: Store, before: &Scene, after: &Scene) -> io::Result<()> {
    let word = word_of(store);
    let numbers = word.map_or([0; 3], |word| word.numbers());
    let old = word.map_or([0; 5], |word| word.value(before));
    let new = word.map_or([0; 5], |word| word.value(after));
    print!(rt; "{}{}{}", Numbers(&numbers), Numbers(&old), Numbers(&new))
}

// The line of a slot, where it was ever swapped or a line names it.
fn print_slot(rt: &impl Print, slot: usize, header: u64, lines: u8) -> io::Result<()> {
    if header == 0 && lines == 0 {
        return Ok(());
    }
    let [era, count, client, _, _] = header_value(header);
    let numbers = [slot as u64, era, count, client, u64::from(lines)];
    println!(rt; "slot{}", Numbers(&numbers))
}

// The slots.
fn print_slots(rt: &impl Print, scene: &Scene) -> io::Result<()> {
    let lines = tally(&scene.ledger.lines);
    for (slot, (header, lines)) in scene.block.headers.iter().zip(&lines).enumerate() {
        print_slot(rt, slot, *header, *lines)?;
    }
    Ok(())
}

// The cells, or the lines of the ledger, that have a slot: client, cell, slot and phase. `shown` says which two numbers
// one of them has.
fn print_entries<T, F: Fn(&T) -> Option<(u64, u64)>>(
    rt: &impl Print,
    heading: &str,
    entries: &[T],
    shown: F,
) -> io::Result<()>
    requires { F.IsAlwaysCallable shown }
{
    for (place, entry) in entries.iter().enumerate() {
        if let Some((slot, phase)) = shown(entry) {
            let numbers = [(place / CELLS) as u64, (place % CELLS) as u64, slot, phase];
            println!(rt; "{heading}{}", Numbers(&numbers))?;
        }
    }
    Ok(())
}

// The line of a client: its standing and own era, and what is under way: its rescuer's step where it is in rescue, its
// own otherwise.
fn print_client(rt: &impl Print, client: u8, records: Records, scene: &Scene) -> io::Result<()> {
    let standing = standing_at(&scene.block.standings, Client(client));
    let doing = match standing {
        Standing::InRescue => Doing::Rescuer(records.rescuer.step),
        _ => Doing::Client(records.client),
    };
    let [kind, cell, slot] = operation_numbers(doing.operation());
    let numbers = [
        u64::from(client),
        standing as u64,
        u64::from(scene.own_era(u64::from(client)).0),
        doing.number(),
        kind,
        cell,
        slot,
    ];
    println!(rt; "client{}", Numbers(&numbers))
}

// The clients.
fn print_clients(rt: &impl Print, scene: &Scene) -> io::Result<()> {
    for (client, records) in (0u8..).zip(&scene.records) {
        print_client(rt, client, *records, scene)?;
    }
    Ok(())
}

// What stands after the last call.
fn print_end(rt: &impl Print, scene: &Scene) -> io::Result<()> {
    print_slots(rt, scene)?;
    print_entries(rt, "line", &scene.ledger.lines, |line| {
        line.map(|line| (u64::from(line.slot.0), u64::from(line.phase)))
    })?;
    print_clients(rt, scene)?;
    print_entries(rt, "cell", &scene.block.cells, |byte| {
        cell_in(*byte).map(|slot| (u64::from(slot.0), 0))
    })
}

// Plays one record and tells it.
fn tell(rt: &impl Print, place: u64, record: Record, scene: &mut Scene) -> io::Result<()> {
    let Some(call) = decode(record) else {
        print_call(rt, place, record, Answer::NoSuchCall)?;
        return println!(rt; "{}", Numbers(&NOTHING));
    };
    let before = *scene;
    let played = scene.play(call);
    print_call(rt, place, record, played.outcome.answer)?;
    print_doing(rt, &played)?;
    print_store(rt, played.outcome.store, &before, scene)?;
    println!(rt)
}

// Reads the own eras that the block is given with ahead of the records, high byte first, and watches those.
pub(crate) fn watch_given(rt: &impl Print, input: &mut impl Read) -> io::Result<()> {
    let mut era = [0u8; 4];
    if read_full(&mut *input, &mut era)? < 4 {
        return Ok(());
    }
    watch(rt, input, Scene::given(Era(u32::from_be_bytes(era))))
}

// Plays the records of standard input and tells each.
pub(crate) fn watch(rt: &impl Print, input: &mut impl Read, begin: Scene) -> io::Result<()> {
    let mut scene = begin;
    let mut record = [0u8; 4];
    // A bound, since `rt.forever()` would be a `Wait`.
    for place in 1..=u64::MAX {
        match read_full(&mut *input, &mut record)? {
            0 => break,
            4 => tell(rt, place, record, &mut scene)?,
            _ => {
                println!(rt; "cut{}", Numbers(&[place, Answer::CutRecord.number()]))?;
                break;
            }
        }
    }
    print_end(rt, &scene)
}
