// Nodes in lent words: finding one, and making one. Inner.
// Words, count and room stay parameters: the callers hold them in structs of their own, or in one slice with other areas, and would make a pool's struct anew at each call.
#![tactic(auto)]

ghost use Rattle.std.specs.Prelude.{◌≡◌, ◌+◌, ◌*◌, ◌<◌, ◌≤◌, max, length, IfNone};
ghost use Rattle.theory.specs.Table.{node, same, mk};
ghost use Rattle.theory.specs.Words.{stride, node_at, nodes};
ghost use Rattle.making.specs.Made.{Beyond};
ghost use Rattle.pool.specs.Pool.{Searched, Noding, Answers, Pushing, pushed, whole_table};

use table::{BddPointer, NODE_WORDS};
use valuation::BddVariable;

// Node p has that mark and those links. The low link is looked at first: it tells most nodes apart, and a search that reads whole nodes took more than twice as long.
fn is_node(
    bdd: &[u32],
    p: BddPointer,
    variable: BddVariable,
    low: BddPointer,
    high: BddPointer,
) -> bool
    requires { stride * p.0 + 2 < length bdd.now }
    ensures { result ≡ same (node_at bdd.now p.0) (node variable.0 low.0 high.0) }
{
    table::low_link_of(bdd, p).0 == low.0 && table::same_node(bdd, p, variable, low, high)
}

// The node with that mark and those links, which stands above both.
// The words that are left are cut at each step: where a loop over node numbers was inlined it kept a third counter, and took about a quarter longer.
pub fn find_node(
    bdd: &[u32],
    count: u32,
    variable: BddVariable,
    low: BddPointer,
    high: BddPointer,
) -> Option<BddPointer>
    requires { (stride * count ≤ length bdd.now) × (low.0 < count) × (high.0 < count) }
    ensures { Searched bdd.now count variable.0 low.0 high.0 result }
{
    let top = low.0.max(high.0);
    let mut above = &bdd[NODE_WORDS * (top as usize + 1)..];
    for left in (0..count - top - 1).rev() {
        if is_node(above, BddPointer(0), variable, low, high) {
            return Some(BddPointer(count - 1 - left));
        }
        above = &above[NODE_WORDS..];
    }
    None
}

// One node more, without a search: its number, and the count with it. None where there is no room: then nothing is written.
pub fn push_node(
    bdd: &mut [u32],
    room: u32,
    count: u32,
    variable: BddVariable,
    low: BddPointer,
    high: BddPointer,
) -> Option<(BddPointer, u32)>
    requires { Pushing bdd.old room count }
    ensures answers { Answers (pushed bdd.old count variable.0 low.0 high.0) room bdd.new result }
    ensures beyond { Beyond room bdd.old bdd.new }
    ensures kept { IfNone result (bdd.new ≡ bdd.old) }
{
    if count >= room {
        return None;
    }
    table::put_node(bdd, count, variable, low, high);
    Some((BddPointer(count), count + 1))
}

// The node with that mark and those links: none is needed where both ways are one, and none is made twice.
pub fn make_node(
    bdd: &mut [u32],
    n: u16,
    room: u32,
    count: u32,
    variable: BddVariable,
    low: BddPointer,
    high: BddPointer,
) -> Option<(BddPointer, u32)>
    requires { Noding bdd.old n room count variable.0 low.0 high.0 }
    ensures answers { Answers (mk (nodes count bdd.old) variable.0 low.0 high.0) room bdd.new result }
    ensures beyond { Beyond room bdd.old bdd.new }
    ensures kept { IfNone result (bdd.new ≡ bdd.old) }
{
    if low.0 == high.0 {
        return Some((low, count));
    }
    if let Some(p) = find_node(&*bdd, count, variable, low, high) {
        return Some((p, count));
    }
    push_node(bdd, room, count, variable, low, high)
}

// What a core that made a whole table answers: its count, or the place of NODES. False is one node; any other table ends at its root.
#[tactic(auto, unfolding(crate::specs::Pool::cut_count))]
pub fn whole_table(made: Option<(BddPointer, u32)>) -> Result<usize, u64>
    ensures { result ≡ whole_table made }
{
    match made {
        None => Err(0),
        Some((root, count)) => Ok(if root.0 == 0 { 1 } else { count as usize }),
    }
}
