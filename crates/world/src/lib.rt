// The world of a history: the eight clients' records beside the block and the matrix. Each call is given those that
// were last handed back.
#![tactic(auto)]

ghost use Rattle.std.specs.Prelude.{◌≡◌};
ghost use Rattle.world.specs.World.{records_at, records_after, fresh_records};

use block::store::write;
use block::word_at;
use calls::{Records, nothing};
use numbers::CLIENTS;

// The records of every client before the first call.
pub fn fresh_records() -> [Records; CLIENTS]
    ensures { result ≡ fresh_records }
{
    [nothing(); CLIENTS]
}

// The records of the client that a call names; of a client that there is none, records with nothing under way.
pub fn records_at(records: &[Records], client: u64) -> Records
    ensures { result ≡ records_at records.now client }
{
    word_at(records, client as usize, nothing())
}

// The records of every client after a call handed back those of one.
pub fn records_after(records: [Records; CLIENTS], client: u64, next: Records) -> [Records; CLIENTS]
    ensures { result ≡ records_after records client next }
{
    let mut after = records;
    write(&mut after, client as usize, next);
    after
}
