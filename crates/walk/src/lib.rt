// The path walk: a struct that holds a table's words by reference and the path that its next step tells of. What it does stands in functions on
// slices and numbers; the struct's own functions only take it apart and put it together.
#![tactic(auto)]

ghost use Rattle.std.specs.Prelude.{◌≡◌, ◌++◌, ◌+◌, ◌*◌, ◌<◌, ◌≤◌, ◌-◌, length, take};
ghost use Rattle.theory.specs.Table.{Reduced};
ghost use Rattle.theory.specs.Words.{stride, node_at, nodes};
ghost use Rattle.refusal.specs.Limits.{max_marks};
ghost use Rattle.refusal.specs.Verdict.{replied};
ghost use Rattle.valuation.specs.Valuation.{clause_of};
ghost use Rattle.walk.specs.Path.{onward, first_from, first_path, can_turn, kept, clause_along, places, state_of, held, Held, Descending};
ghost use Rattle.walk.specs.Step.{path_step_reply, step_of, next_path, found, start_of, words_of, Came, tells, walk_clauses};

use refusal::Refusal;
use table::{BddPointer, Inspection, Table};
use valuation::BddPartialValuation;

// Inner: the first `len` places of `path` are the nodes from the root to node 1. There is a place for each mark, and one for the constant.
// An array and a length: a library has no heap.
#[derive(Clone, Copy)]
pub struct PathState {
    pub len: u32,
    pub path: [BddPointer; 61],
}

const NO_PATH: PathState = PathState {
    len: 0,
    path: [BddPointer(0); 61],
};

// Only a start makes one, and only a step changes its path.
#[derive(Clone, Copy)]
pub struct BddPathIterator<'a> {
    bdd: &'a [u32],
    at: PathState,
    refusal: Option<Refusal>,
    ghost came: { ∥ Came bdd.now at ∥₁ },
}

// Where the first path goes from node p.
fn onward_of(bdd: &[u32], p: BddPointer) -> BddPointer
    requires { stride * p.0 + 2 < length bdd.now }
    ensures { result.0 ≡ onward (node_at bdd.now p.0) }
{
    let low = table::low_link_of(bdd, p);
    if low.0 == 0 {
        table::high_link_of(bdd, p)
    } else {
        low
    }
}

// The path so far, then as the first path goes from node p.
fn descend(bdd: &[u32], s: PathState, p: BddPointer) -> PathState
    requires { ∥ Descending bdd.now s p.0 ∥₁ }
    ensures { result ≡ state_of (held s ++ first_from max_marks bdd.now p.0) }
{
    let mut len = s.len;
    let mut path = s.path;
    let mut q = p;
    // How many steps there are, the links say. The path's array is fixed, since nothing here has a heap.
    while q.0 > 1 {
        let at = len as usize;
        path[at] = q;
        len += 1;
        q = onward_of(bdd, q);
    }
    let last = len as usize;
    path[last] = q;
    PathState { len: len + 1, path }
}

// The first path of a table.
fn first_path(table: Table) -> PathState
    requires { Reduced table.n (nodes table.count table.words.now) }
    ensures { result ≡ state_of (first_path table.entry.words.now table.entry.root.0) }
{
    if table.root.0 == 0 {
        return NO_PATH;
    }
    descend(table.words, NO_PATH, table.root)
}

// From node p the path goes low to q, and high is a way to node 1 too.
fn can_turn(bdd: &[u32], p: BddPointer, q: BddPointer) -> bool
    requires { stride * p.0 + 2 < length bdd.now }
    ensures { result ≡ can_turn bdd.now p.0 q.0 }
{
    if table::low_link_of(bdd, p).0 != q.0 {
        return false;
    }
    table::high_link_of(bdd, p).0 != 0
}

// How many nodes of a path the next one keeps.
fn kept_of(bdd: &[u32], s: &PathState) -> u32
    requires { ∥ Held bdd.now s.now ∥₁ × (1 ≤ s.now.len) }
    ensures { result ≡ kept bdd.now s.now.path (s.now.len - 1) }
{
    for i in (1..s.len).rev() {
        let at = i as usize;
        if can_turn(bdd, s.path[at - 1], s.path[at]) {
            return i;
        }
    }
    0
}

// The first nodes of a path.
fn cut(s: &PathState, keep: u32) -> PathState
    requires { (keep ≤ places) × (length s.now.path ≡ places) }
    ensures { result ≡ state_of (take keep s.now.path) }
{
    let mut path = [BddPointer(0); 61];
    let end = keep as usize;
    path[..end].copy_from_slice(&s.path[..end]);
    PathState { len: keep, path }
}

// The path after this one, or none.
fn next_path(bdd: &[u32], s: &PathState) -> PathState
    requires { ∥ Held bdd.now s.now ∥₁ }
    ensures { result ≡ next_path bdd.now s.now }
{
    if s.len == 0 {
        return *s;
    }
    let keep = kept_of(bdd, s);
    let start = cut(s, keep);
    if keep == 0 {
        return start;
    }
    let last = s.path[(keep - 1) as usize];
    descend(bdd, start, table::high_link_of(bdd, last))
}

// The clause of a path.
fn clause_of(bdd: &[u32], s: &PathState) -> BddPartialValuation
    requires { ∥ Held bdd.now s.now ∥₁ }
    ensures { clause_of result ≡ clause_along bdd.now (held s.now) }
{
    let mut v = BddPartialValuation {
        fixed: 0,
        values: 0,
    };
    for i in 1..s.len as usize {
        let p = s.path[i - 1];
        let high = table::high_link_of(bdd, p);
        v = valuation::with_bit(v, table::var_of(bdd, p), high.0 == s.path[i].0);
    }
    v
}

// What a step says of the path that the walk holds.
fn step_of(bdd: &[u32], s: &PathState) -> Option<BddPartialValuation>
    requires { ∥ Held bdd.now s.now ∥₁ }
    ensures { path_step_reply result ≡ replied (step_of bdd.now s.now) }
{
    if s.len == 0 {
        return None;
    }
    Some(clause_of(bdd, s))
}

// The first path of these words, or why there is no walk on them.
fn start_of(n: u16, count: usize, bdd: &[u32]) -> Result<PathState, Refusal>
    ensures { found result ≡ start_of n count bdd.now }
{
    let checked = reduced::walk_check(n, count, bdd);
    let Inspection::Sound(root) = checked else {
        return Err(checked.refusal());
    };
    let table = Table {
        n,
        count,
        words: bdd,
        root,
    };
    Ok(first_path(table))
}

impl<'a> BddPathIterator<'a> {
    ghost use Rattle.walk.specs.Walk.{start_in, refusal_in};

    // Starts a walk on a table. It holds the table's words by reference; a refused start holds none, and each of its steps says that it has ended.
    pub fn new(n: u16, count: usize, bdd: &'a [u32]) -> BddPathIterator<'a>
        ensures { (result.bdd.now ≡ words_of n count bdd.now) × (result.bdd.ref_ptr ≡ bdd.entry.ref_ptr) × (start_in result ≡ start_of n count bdd.now) }
    {
        let first = match start_of(n, count, bdd) {
            Ok(first) => first,
            Err(refusal) => {
                return BddPathIterator {
                    bdd: &bdd[..0],
                    at: NO_PATH,
                    refusal: Some(refusal),
                };
            }
        };
        BddPathIterator {
            bdd,
            at: first,
            refusal: None,
        }
    }

    // Why the start was refused, if it was.
    pub fn refusal(&self) -> Option<Refusal>
        ensures { result ≡ refusal_in self.now }
    {
        self.refusal
    }
}

// The next clause, or that the walk has ended.
impl Iterator for BddPathIterator<'_> {
    ghost use Rattle.walk.specs.Walk.{Steps};

    type Item = BddPartialValuation;

    ghost next_gives = { Steps };

    fn next(&mut self) -> Option<BddPartialValuation> {
        if self.at.len == 0 {
            return None;
        }
        let here = self.at;
        self.at = next_path(self.bdd, &here);
        step_of(self.bdd, &here)
    }
}

// What a walk started on these words says after k steps.
pub fn kth_step(n: u16, count: usize, nodes: &[u32], k: u32) -> Option<BddPartialValuation>
    ensures { path_step_reply result ≡ replied (tells (walk_clauses n count nodes.now) k) }
{
    let mut walk = BddPathIterator::new(n, count, nodes);
    for _i in 0..k {
        walk.next();
    }
    walk.next()
}
