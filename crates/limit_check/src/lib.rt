// Whether what a call is given is within the limits. A block and its records may hold anything; each call asks this
// first, and answers 11 where it does not hold.
#![tactic(auto)]

mod block_words;
mod record_words;

ghost use Rattle.std.specs.Prelude.{◌≡◌};
ghost use Rattle.limits.specs.Limits.{within, block_within};

use block::Block;
use block::matrix::Matrix;
use block_words::{cells_within, eras_within, headers_within, logs_within};
use record_words::{rescue_within, stage_within};
use rescue::RescuerRecord;
use stages::ClientRecord;

// Whether the block, the matrix and the two records of client `c` are within their limits.
#[tactic(auto, unfolding(limits::specs::Limits::within))]
pub fn within(
    c: u64,
    block: Block,
    eras: Matrix,
    client: ClientRecord,
    rescuer: RescuerRecord,
) -> bool
    ensures { result ≡ within c block eras client rescuer }
{
    block_within(block)
        && eras_within(eras)
        && stage_within(client)
        && rescue_within(c, rescuer.step)
}

// Whether every header, cell and log of a block is.
#[tactic(auto, unfolding(limits::specs::Limits::block_within))]
fn block_within(block: Block) -> bool
    ensures { result ≡ block_within block }
{
    headers_within(&block.headers) && cells_within(&block.cells) && logs_within(&block.logs)
}
