//! Which nodes have trees in a block of the instruction store, and how many of the found nodes have child trees.
ghost use Rattle.std.specs.Prelude.{◌≡◌, ◌<◌, ◌≤◌, length};
ghost use Rattle.stack.specs.Stores.{child_block, bears, bearers};

use crate::{CHILD_BLOCK, INSTRUCTION};
use cells::number_at;

// Whether a node has trees in the block that word w of its instruction row begins.
#[tactic(auto, using(crate::proofs::Bearers::block_is))]
pub fn has_block(program: &[u32], limit: usize, w: usize, node: u16) -> bool
    requires { w < 8 }
    ensures { result ≡ bears program.now limit w node }
{
    let at = node as usize * INSTRUCTION + w;
    let first = number_at(program, at);
    let count = number_at(program, at + 1);
    0 < count && first + count <= limit
}

// How many of the found nodes have child trees.
pub fn count_parents(program: &[u32], limit: usize, found: &[u16]) -> usize
    ensures { (result ≡ length (bearers program.now limit child_block found.now)) × (result ≤ length found.now) }
{
    found
        .iter()
        .filter(|node| has_block(program, limit, CHILD_BLOCK, **node))
        .count()
}
