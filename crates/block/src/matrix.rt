// The era matrix: eight rows of eight, an array of arrays by value, kept beside the block. Entry (i, i) is client i's
// own era, entry (i, j) the largest era of j that i has seen. A read is lent the matrix, and takes a row and its entry.
ghost use Rattle.std.specs.Prelude.{◌≡◌};
ghost use Rattle.block.specs.Matrix.{seen_era, own_era, fresh_eras, eras_from};

use crate::word_at;
use numbers::{CLIENTS, Client, Era};

// What one client has seen of each.
pub type Row = [u32; CLIENTS];

// The rows of all clients.
pub type Matrix = [Row; CLIENTS];

// A matrix with every own era alike, and nothing seen of another.
pub fn eras_from(own: Era) -> Matrix
    ensures { result ≡ eras_from own }
{
    let e = own.0;
    [
        [e, 0, 0, 0, 0, 0, 0, 0],
        [0, e, 0, 0, 0, 0, 0, 0],
        [0, 0, e, 0, 0, 0, 0, 0],
        [0, 0, 0, e, 0, 0, 0, 0],
        [0, 0, 0, 0, e, 0, 0, 0],
        [0, 0, 0, 0, 0, e, 0, 0],
        [0, 0, 0, 0, 0, 0, e, 0],
        [0, 0, 0, 0, 0, 0, 0, e],
    ]
}

// The matrix before the first call.
#[tactic(auto, unfolding(crate::specs::Matrix::fresh_eras))]
pub fn fresh_eras() -> Matrix
    ensures { result ≡ fresh_eras }
{
    eras_from(Era(1))
}

// The largest era of `of` that `by` has seen.
pub fn seen_era(eras: &[Row], by: Client, of: Client) -> Era
    ensures { result ≡ seen_era eras.now by.0 of.0 }
{
    let row = word_at(eras, by.0 as usize, [0; CLIENTS]);
    Era(word_at(&row, of.0 as usize, 0))
}

// A client's own era.
pub fn own_era(eras: &[Row], client: Client) -> Era
    ensures { result ≡ own_era eras.now client.0 }
{
    seen_era(eras, client, client)
}
