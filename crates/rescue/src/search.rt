// The search for the lowest cell of a client that holds a slot. It reads the cells where they lie.
ghost use Rattle.std.specs.Prelude.{◌≡◌};
ghost use Rattle.rescue.specs.Search.{lowest_full};

use block::cell_at;
use numbers::{CELLS, Client, Slot};

// The lowest full cell of client `c`, with the slot that it holds. The search stops at the first one.
#[tactic(auto, using(crate::proofs::Lowest::passes, crate::proofs::Lowest::finds, crate::proofs::Lowest::ends))]
pub fn lowest_full(cells: &[u8], c: Client) -> Option<(u8, Slot)>
    ensures { result ≡ lowest_full cells.now c.0 }
{
    let mut k: u8 = 0;
    // Counted by hand: rule R9.3 names a loop that yields by break, and a `for` yields nothing.
    loop {
        if CELLS <= k as usize {
            break None;
        }
        if let Some(slot) = cell_at(cells, c, k) {
            break Some((k, slot));
        }
        k += 1;
    }
}
