// Hash chains over the nodes of a pool: equal nodes are found by their slot. Inner.
// The areas stay offsets in one slice: each step of a descent reads and writes all of them, and its callers would hand on four slices for one.
// In work: the pool of cap nodes from 0 on, a memo that is not touched here from 3 * cap on, the chains' heads from 4 * cap on, the next nodes from 5 * cap on.
#![tactic(auto)]

ghost use Rattle.std.specs.Prelude.{◌≡◌, ◌≢◌, ◌*◌, ◌<◌, ◌≤◌, length};
ghost use Rattle.pool.specs.Pool.{Searched, Noding};
ghost use Rattle.chain.specs.Chain.{slot_of, slot_at, hung, Chained, Zeroed, Notes, Indexed};

use table::BddPointer;
use valuation::BddVariable;

// The chain of a node with that mark and those links.
fn slot(cap: u32, mark: u32, low: BddPointer, high: BddPointer) -> usize
    requires { 0 < cap }
    ensures { (result ≡ slot_of cap mark low.0 high.0) × (result < cap) }
{
    let mixed = (low.0 as u64) * 12582917 + (high.0 as u64) * 4256249 + (mark as u64);
    (mixed % (cap as u64)) as usize
}

// The node with that mark and those links, along its chain, the latest node first. The links are followed: there is no index to count.
fn find_node(
    work: &[u32],
    cap: u32,
    count: u32,
    variable: BddVariable,
    low: BddPointer,
    high: BddPointer,
) -> Option<BddPointer>
    requires { (6 * cap ≤ length work.now) × (0 < cap) × (count ≤ cap) × (low.0 ≢ high.0) × Chained work.now cap count }
    ensures { Searched work.now count variable.0 low.0 high.0 result }
{
    let h = slot(cap, variable.0 as u32, low, high);
    let mut i = work[4 * (cap as usize) + h];
    // How many steps there are, the links say.
    while i >= 2 {
        if table::same_node(work, BddPointer(i), variable, low, high) {
            return Some(BddPointer(i));
        }
        i = work[5 * (cap as usize) + (i as usize)];
    }
    None
}

// Node p comes to the front of its chain.
fn link_node(work: &mut [u32], cap: u32, p: BddPointer)
    requires { (6 * cap ≤ length work.old) × (p.0 < cap) }
    ensures { work.new ≡ hung work.old cap p.0 (slot_at work.old cap p.0) }
{
    let mark = table::mark_word(&*work, p);
    let low = table::low_link_of(&*work, p);
    let high = table::high_link_of(&*work, p);
    let head = 4 * (cap as usize) + slot(cap, mark, low, high);
    work[5 * (cap as usize) + (p.0 as usize)] = work[head];
    work[head] = p.0;
}

// As in `pool`, with the chains: the node with that mark and those links, found or made.
pub fn make_node(
    work: &mut [u32],
    n: u16,
    cap: u32,
    count: u32,
    variable: BddVariable,
    low: BddPointer,
    high: BddPointer,
) -> Option<(BddPointer, u32)>
    requires { Noding work.old n cap count variable.0 low.0 high.0 × (6 * cap ≤ length work.old) × Chained work.old cap count }
    ensures { Notes work.old work.new cap count variable.0 low.0 high.0 result }
{
    if low.0 == high.0 {
        return Some((low, count));
    }
    if let Some(p) = find_node(&*work, cap, count, variable, low, high) {
        return Some((p, count));
    }
    let (p, more) = pool::push_node(work, cap, count, variable, low, high)?;
    link_node(work, cap, BddPointer(count));
    Some((p, more))
}

// Zeros from start up to, not including, end.
pub fn clear(work: &mut [u32], start: usize, end: usize)
    requires { (start ≤ end) × (end ≤ length work.old) }
    ensures { Zeroed work.old work.new start end }
{
    work[start..end].fill(0);
}

// The chains of a pool of that many nodes, whatever stood in their words.
pub fn index_nodes(work: &mut [u32], cap: u32, count: u32)
    requires { (6 * cap ≤ length work.old) × (2 ≤ count) × (count ≤ cap) }
    ensures { Indexed work.old work.new cap count }
{
    clear(work, 4 * (cap as usize), 5 * (cap as usize));
    for i in 2..count {
        link_node(work, cap, BddPointer(i));
    }
}
