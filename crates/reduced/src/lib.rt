// Whether a table is reduced, as the start of a walk asks.
#![tactic(auto, using(table::proofs::InspectLaws::inspected_reply, crate::proofs::CheckLaws::check_refused, crate::proofs::CheckLaws::check_unreduced), unfolding(crate::specs::Reduced::links_marked))]

ghost use Rattle.std.specs.Prelude.{◌≡◌, ◌+◌, ◌*◌, ◌<◌, ◌≤◌, length, replicate};
ghost use Rattle.theory.specs.Words.{stride, node_at, nodes};
ghost use Rattle.refusal.specs.Limits.{max_nodes};
ghost use Rattle.refusal.specs.Verdict.{replied};
ghost use Rattle.refusal.specs.Told.{reply_of};
ghost use Rattle.table.specs.Inspection.{pointer, inspection_reply};
ghost use Rattle.reduced.specs.Reduced.{repeated, node_reduced, first_unreduced, admits_walk, links_marked, Marked};

use refusal::{MAX_NODES, Refusal, RefusalKind, refuse_if};
use table::{BddPointer, Inspection, Table};

// Marks what a marked node links to.
fn mark_links(bdd: &[u32], p: BddPointer, marks: &mut [u8])
    requires { (stride * p.0 + 2 < length bdd.now) × (p.0 < length marks.old) × ((node_at bdd.now p.0).low < length marks.old) × ((node_at bdd.now p.0).high < length marks.old) }
    ensures { marks.new ≡ links_marked bdd.now p.0 marks.old }
{
    let at = p.0 as usize;
    if marks[at] == 0 {
        return;
    }
    let low = table::low_link_of(bdd, p).0 as usize;
    marks[low] = 1;
    let high = table::high_link_of(bdd, p).0 as usize;
    marks[high] = 1;
}

// Marks what a path leads to from the root. Links lead down, so that one pass from the top is enough.
fn mark_reachable(table: Table, marks: &mut [u8])
    requires { marks.old ≡ replicate max_nodes 0 }
    ensures { Marked table.entry.n table.entry.count table.entry.words.now marks.new }
{
    marks[table.root.0 as usize] = 1;
    for p in (2..table.root.0 + 1).rev() {
        mark_links(table.words, BddPointer(p), marks);
    }
}

// An earlier node has node p's triple.
fn is_repeated(table: &Table, p: BddPointer) -> bool
    requires { (2 ≤ p.0) × (p.0 < table.now.count) }
    ensures { result ≡ repeated (nodes table.now.count table.now.words.now) (node_at table.now.words.now p.0) p.0 }
{
    let found = pool::find_node(
        table.words,
        p.0,
        table.var_of(p),
        table.low_link_of(p),
        table.high_link_of(p),
    );
    found.is_some()
}

// Node p is as a reduced table has it: different links, no earlier triple, reachable.
#[tactic(auto, using(table::proofs::NodeLaws::node_read, crate::proofs::ReducedLaws::marked_says), unfolding(crate::specs::Reduced::node_reduced))]
fn node_reduced(table: &Table, marks: &[u8], p: BddPointer) -> bool
    requires { (Marked table.now.n table.now.count table.now.words.now marks.now) × (p.0 < table.now.count) }
    ensures { result ≡ node_reduced table.now.n (nodes table.now.count table.now.words.now) p.0 }
{
    if p.0 < 2 {
        return true;
    }
    table.low_link_of(p).0 != table.high_link_of(p).0
        && !is_repeated(table, p)
        && marks[p.0 as usize] != 0
}

// The lowest node that a reduced table would not have, or the count.
fn first_unreduced(table: &Table, marks: &[u8]) -> usize
    requires { Marked table.now.n table.now.count table.now.words.now marks.now }
    ensures { result ≡ first_unreduced table.now.n table.now.count table.now.words.now }
{
    for i in 0..table.count {
        if !node_reduced(table, marks, BddPointer(i as u32)) {
            return i;
        }
    }
    table.count
}

// The same, with the reachable nodes marked first.
fn lowest_unreduced(table: Table) -> usize
    ensures { result ≡ first_unreduced table.entry.n table.entry.count table.entry.words.now }
{
    // A local, one byte a node: there is no heap, and a walk's start is lent no work.
    let mut marks = [0u8; MAX_NODES];
    mark_reachable(table, &mut marks);
    first_unreduced(&table, &marks)
}

// The tests of a walk's start: inspection's, then REDUCED.
fn reduced_root(n: u16, count: usize, bdd: &[u32]) -> Result<BddPointer, Refusal>
    ensures { reply_of pointer result ≡ replied (admits_walk n count bdd.now) }
{
    let root = table::inspect(n, count, bdd).answer()?;
    let table = Table {
        n,
        count,
        words: bdd,
        root,
    };
    let bad = lowest_unreduced(table);
    refuse_if(bad < count, RefusalKind::Reduced, bad as u64)?;
    Ok(root)
}

// The root of a reduced table, else the refusal.
pub fn walk_check(n: u16, count: usize, bdd: &[u32]) -> Inspection
    ensures { inspection_reply result ≡ replied (admits_walk n count bdd.now) }
{
    Inspection::from(reduced_root(n, count, bdd))
}
