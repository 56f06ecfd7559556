// The world of a run, with its ledger. Each call goes through the proved machine; no history from a fresh block is
// beyond its limits, so the plain call is the whole one.
use crate::doing::Played;
use crate::ledger::Ledger;
use block::matrix::{Matrix, eras_from, fresh_eras, own_era};
use block::store::put_era;
use block::{Block, fresh_block};
use calls::{Call, Records};
use machine::plain_call;
use numbers::answers::Answer;
use numbers::{CLIENTS, Client, Era};
use stages::Outcome;
use world::{fresh_records, records_after, records_at};

// The block, the era matrix, every client's records, and the ledger of the calls so far.
#[derive(Clone, Copy)]
pub(crate) struct Scene {
    pub(crate) block: Block,
    pub(crate) eras: Matrix,
    pub(crate) records: [Records; CLIENTS],
    pub(crate) ledger: Ledger,
}

impl Scene {
    // Before the first call.
    pub(crate) fn fresh() -> Scene {
        Scene {
            block: fresh_block(),
            eras: fresh_eras(),
            records: fresh_records(),
            ledger: Ledger::new(),
        }
    }

    // A block given with all own eras alike and nothing done: fresh but for the era. At 0 it is the trap of that name,
    // which the limits shut out.
    pub(crate) fn given(own: Era) -> Scene {
        Scene {
            eras: eras_from(own),
            ..Scene::fresh()
        }
    }

    // The records that a call of a client is given.
    pub(crate) fn given_to(&self, client: u64) -> Records {
        records_at(&self.records, client)
    }

    // A client's own era; of a client that there is none 0, as the matrix is read past its last row.
    pub(crate) fn own_era(&self, client: u64) -> Era {
        Client::try_from(client).map_or(Era(0), |client| own_era(&self.eras, client))
    }

    // What a call answers, hands back and writes.
    pub(crate) fn outcome(&self, call: Call) -> Outcome<Records> {
        plain_call(call, self.block, self.eras, self.given_to(call.client))
    }

    // What a call answers.
    pub(crate) fn answer(&self, call: Call) -> Answer {
        self.outcome(call).answer
    }

    // Plays a call: the world and its ledger after it.
    pub(crate) fn play(&mut self, call: Call) -> Played {
        let given = self.given_to(call.client);
        let outcome = self.outcome(call);
        let played = Played {
            call,
            given,
            outcome,
        };
        let era = self.own_era(call.client);
        self.ledger.keep(&played, era);
        self.block.put(outcome.store);
        put_era(outcome.store, &mut self.eras);
        self.records = records_after(self.records, call.client, outcome.next);
        played
    }
}
