// What the entries that make a table share: their room and work, the constants, words copied, and the settling of their buffers. Inner.
#![tactic(auto, using(refusal::proofs::Zeroing::zeroed), unfolding(refusal::specs::Buffers::padded, crate::specs::Room::over_room, crate::specs::Room::short_output, crate::specs::Room::short_work))]

ghost use Rattle.std.specs.Prelude.{◌≡◌, ◌+◌, ◌*◌, ◌≤◌, length};
ghost use Rattle.theory.specs.Table.{constants};
ghost use Rattle.theory.specs.Words.{stride, nodes};
ghost use Rattle.refusal.specs.Limits.{max_nodes, plain_work};
ghost use Rattle.making.specs.Room.{over_room, short_output, short_work};
ghost use Rattle.making.specs.Made.{Beyond, Settling, Settles};

use refusal::{MAX_NODES, MIN_ROOM, Refusal, RefusalKind};
use table::{BddPointer, NODE_WORDS};
use valuation::BddVariable;

pub fn over_room(room: usize) -> bool
    ensures { result ≡ over_room room }
{
    room < MIN_ROOM || room > MAX_NODES
}

pub fn short_output(room: usize, out: &[u32]) -> bool
    requires { room ≤ max_nodes }
    ensures { result ≡ short_output room out.now }
{
    out.len() < NODE_WORDS * room
}

pub fn plain_work(widest: usize) -> usize
    requires { widest ≤ max_nodes }
    ensures { result ≡ plain_work widest }
{
    12 * widest + 192
}

pub fn short_work(widest: usize, work: &[u32]) -> bool
    requires { widest ≤ max_nodes }
    ensures { result ≡ short_work widest work.now }
{
    work.len() < plain_work(widest)
}

// Node 0 and node 1 at the front.
pub fn put_constants(out: &mut [u32], n: u16)
    requires { stride * 2 ≤ length out.old }
    ensures out_after { nodes 2 out.new ≡ constants n }
    ensures beyond { Beyond 2 out.old out.new }
{
    table::put_node(out, 0, BddVariable(n), BddPointer(0), BddPointer(0));
    table::put_node(out, 1, BddVariable(n), BddPointer(1), BddPointer(1));
}

// Words copied to a place of as many. No copy_from_slice: a C program that links the archive would have to bring memmove along.
pub fn copy_words(to: &mut [u32], from: &[u32])
    requires { length to.old ≡ length from.now }
    ensures { to.new ≡ from.now }
{
    for (i, word) in from.iter().enumerate() {
        to[i] = *word;
    }
}

// Zeros behind the table that a core left, and in the work memory; all zeros where the core gave the place of NODES.
pub fn settle(
    tabled: Result<usize, u64>,
    out: &mut [u32],
    work: &mut [u32],
) -> Result<usize, Refusal>
    requires { Settling tabled out.old }
    ensures { Settles tabled out.old out.new work.old work.new result }
{
    work.fill(0);
    match tabled {
        Ok(count) => {
            out[NODE_WORDS * count..].fill(0);
            Ok(count)
        }
        Err(place) => {
            out.fill(0);
            Err(Refusal {
                kind: RefusalKind::Nodes,
                place,
            })
        }
    }
}
