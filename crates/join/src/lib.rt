// Two tables descended together into a third: the core of the operators. Inner.
#![tactic(auto)]

ghost use Rattle.std.specs.Prelude.{◌≡◌, ◌+◌, ◌*◌, ◌-◌, ◌<◌, ◌≤◌, ◌/◌, min, ltb, length};
ghost use Rattle.theory.specs.Table.{truth, num, canon};
ghost use Rattle.theory.specs.Words.{stride};
ghost use Rattle.refusal.specs.Limits.{max_nodes};
ghost use Rattle.making.specs.Made.{Leaves};
ghost use Rattle.join.specs.Task.{op_of, truth_table, step_in};
ghost use Rattle.join.specs.Memo.{ways, slot_of, Recalls, Stores};
ghost use Rattle.std.proofs.Props.{props};
ghost use Rattle.join.specs.Trees.{tree_set};
ghost use Rattle.join.specs.Joining.{Agrees, Deciding, Knowing, Placed, Cuts, Splitting, Splits, Joining, Ready, Standing, Walks, Joins, Given, joined_by};

use table::BddPointer;
use valuation::BddVariable;

// An operand: its node count, and the mark that is set to a value on the way down; mark n sets none.
#[derive(Clone, Copy)]
pub struct Side {
    pub count: u32,
    pub variable: BddVariable,
    pub value: bool,
}

// An operation of two answers. Its number is its truth table, whose bit 2x + y answers x and y.
#[derive(Clone, Copy, PartialEq, Eq, Debug)]
pub enum Operation {
    And = 8,
    Or = 14,
    AndNot = 4,
}

impl Operation {
    fn truth_table(self) -> u32
        ensures { result ≡ truth_table self }
    {
        self as u32
    }
}

// The truth table's answer for two constants.
pub fn op_bit(op: u32, x: BddPointer, y: BddPointer) -> BddPointer
    requires { (x.0 < 2) × (y.0 < 2) }
    ensures { result.0 ≡ num (op_of op (truth x.0) (truth y.0)) }
{
    BddPointer((op >> (2 * x.0 + y.0)) % 2)
}

// What is joined, and by which truth table: any number is one.
#[derive(Clone, Copy)]
pub struct Job {
    pub n: u16,
    pub op: u32,
    pub left: Side,
    pub right: Side,
    pub room: u32,
}

impl Job {
    ghost use Rattle.join.specs.Jobs.{pair_job, mark_job};

    // Two tables as they are.
    pub fn pair(n: u16, op: Operation, left: usize, right: usize, room: usize) -> Job
        requires { (left ≤ max_nodes) × (right ≤ max_nodes) × (room ≤ max_nodes) }
        ensures { result ≡ pair_job n op left right room }
    {
        let none = BddVariable(n);
        let left = Side {
            count: left as u32,
            variable: none,
            value: false,
        };
        let right = Side {
            count: right as u32,
            variable: none,
            value: false,
        };
        Job {
            n,
            op: op.truth_table(),
            left,
            right,
            room: room as u32,
        }
    }

    // One table twice: with the mark set to 0, and to 1.
    pub fn mark(n: u16, op: Operation, count: usize, variable: BddVariable, room: usize) -> Job
        requires { (count ≤ max_nodes) × (room ≤ max_nodes) }
        ensures { result ≡ mark_job n op count variable room }
    {
        let left = Side {
            count: count as u32,
            variable,
            value: false,
        };
        let right = Side {
            count: count as u32,
            variable,
            value: true,
        };
        Job {
            n,
            op: op.truth_table(),
            left,
            right,
            room: room as u32,
        }
    }
}

// A node of each operand.
#[derive(Clone, Copy)]
pub struct Pair {
    pub left: BddPointer,
    pub right: BddPointer,
}

// Where a pair is split: the level, the pair, and the pairs on both sides.
#[derive(Clone, Copy)]
pub struct Cut {
    pub level: BddVariable,
    pub pair: Pair,
    pub low: Pair,
    pub high: Pair,
}

// Both are ways on, and neither is a failure: no Option, no Result.
#[derive(Clone, Copy)]
pub enum Step {
    Known(BddPointer),
    Fork(Cut),
}

// Where node p goes when a mark is set: to a child if it has that mark.
pub fn step_to(bdd: &[u32], p: BddPointer, variable: BddVariable, value: bool) -> BddPointer
    requires { stride * p.0 + 2 < length bdd.now }
    ensures { result.0 ≡ step_in bdd.now variable.0 value p.0 }
{
    if table::mark_word(bdd, p) != variable.0 as u32 {
        return p;
    }
    if value {
        return table::high_link_of(bdd, p);
    }
    table::low_link_of(bdd, p)
}

// The answer where both cases have the same one.
fn agreed(no: BddPointer, yes: BddPointer) -> Option<BddPointer>
    ensures { Agrees no.0 yes.0 result }
{
    if no.0 == yes.0 { Some(no) } else { None }
}

// How many entries stand at one place of the memory.
const WAYS: usize = 4;

// An entry has the left node times this, and the result below it.
const RESULTS: u32 = 4096;

// The place of a pair's entries in the memory.
pub fn slot(sets: usize, x: BddPointer, y: BddPointer) -> usize
    requires { (0 < sets) × (x.0 < max_nodes) × (y.0 < max_nodes) }
    ensures { (result ≡ slot_of sets x.0 y.0) × (result < sets) }
{
    ((x.0 as usize) * 40111 / 16 + (y.0 as usize)) % sets
}

// What the memory holds of a pair: an entry is the left node and the result.
pub fn recall(memo: &[u32], x: BddPointer, y: BddPointer) -> Option<BddPointer>
    requires { (ways ≤ length memo.now) × (x.0 < max_nodes) × (y.0 < max_nodes) }
    ensures { Recalls memo.now x.0 y.0 result }
{
    let from = WAYS * slot(memo.len() / WAYS, x, y);
    for word in &memo[from..from + WAYS] {
        if word / RESULTS == x.0 + 1 {
            return Some(BddPointer(word % RESULTS));
        }
    }
    None
}

// Stores an entry before the others of its place; the oldest is lost.
pub fn remember(memo: &mut [u32], x: BddPointer, y: BddPointer, r: BddPointer)
    requires { (ways ≤ length memo.old) × (x.0 < max_nodes) × (y.0 < max_nodes) × (r.0 < max_nodes) }
    ensures { Stores memo.old memo.new x.0 y.0 r.0 }
{
    let from = WAYS * slot(memo.len() / WAYS, x, y);
    memo.copy_within(from..from + WAYS - 1, from + 1);
    memo[from] = (x.0 + 1) * RESULTS + r.0;
}

// The answer of a pair with a constant that decides it.
fn decided(op: u32, x: BddPointer, y: BddPointer) -> Option<BddPointer>
    ensures { Deciding op x.0 y.0 result }
{
    let no = BddPointer(0);
    let yes = BddPointer(1);
    match (x.0 < 2, y.0 < 2) {
        (true, true) => Some(op_bit(op, x, y)),
        (true, false) => agreed(op_bit(op, x, no), op_bit(op, x, yes)),
        (false, true) => agreed(op_bit(op, no, y), op_bit(op, yes, y)),
        (false, false) => None,
    }
}

// What is known of a pair before it is split.
fn known(op: u32, memo: &[u32], x: BddPointer, y: BddPointer) -> Option<BddPointer>
    requires { (ways ≤ length memo.now) × (x.0 < max_nodes) × (y.0 < max_nodes) }
    ensures { Knowing op memo.now x.0 y.0 result }
{
    decided(op, x, y).or_else(|| recall(memo, x, y))
}

// Where both nodes of a pair go when a mark is set.
fn step_both(a: &[u32], b: &[u32], pair: Pair, variable: BddVariable, value: bool) -> Pair
    requires { (stride * pair.left.0 + 2 < length a.now) × (stride * pair.right.0 + 2 < length b.now) }
    ensures { (result.left.0 ≡ step_in a.now variable.0 value pair.left.0) × (result.right.0 ≡ step_in b.now variable.0 value pair.right.0) }
{
    let left = step_to(a, pair.left, variable, value);
    let right = step_to(b, pair.right, variable, value);
    Pair { left, right }
}

// The pair split at the lesser of its marks.
fn cut_at(a: &[u32], b: &[u32], pair: Pair) -> Cut
    requires { Placed a.now pair.left.0 × Placed b.now pair.right.0 }
    ensures { Cuts a.now b.now pair result }
{
    let left = table::var_of(a, pair.left);
    let right = table::var_of(b, pair.right);
    let level = BddVariable(left.0.min(right.0));
    let low = step_both(a, b, pair, level, false);
    let high = step_both(a, b, pair, level, true);
    Cut {
        level,
        pair,
        low,
        high,
    }
}

// What is known of the pair, its set marks passed, or where it is split.
pub fn split(a: &[u32], b: &[u32], memo: &[u32], job: Job, pair: Pair) -> Step
    requires { Splitting a.now b.now memo.now job pair.left.0 pair.right.0 }
    ensures { Splits a.now b.now memo.now job pair.left.0 pair.right.0 result }
{
    let left = step_to(a, pair.left, job.left.variable, job.left.value);
    let right = step_to(b, pair.right, job.right.variable, job.right.value);
    match known(job.op, memo, left, right) {
        Some(r) => Step::Known(r),
        None => Step::Fork(cut_at(a, b, Pair { left, right })),
    }
}

// The descent of two tables into the output, where a number of nodes stands.
#[derive(Drop)]
struct Descent<'t, 'o, 'm> {
    left: &'t [u32],
    right: &'t [u32],
    job: Job,
    out: &'o mut [u32],
    made: u32,
    memo: &'m mut [u32],
    ghost ready: { Ready left.now right.now out.now memo.now job made } by { Prim.hlevel (props, tree_set) },
}

impl Descent<'_, '_, '_> {
    fn split(&self, pair: Pair) -> Step
        requires { Splitting self.now.left.now self.now.right.now self.now.memo.now self.now.job pair.left.0 pair.right.0 }
        ensures { Splits self.now.left.now self.now.right.now self.now.memo.now self.now.job pair.left.0 pair.right.0 result }
    {
        split(self.left, self.right, self.memo, self.job, pair)
    }

    // The node of a pair: low pair first. None where there is no room for it.
    fn node(&mut self, level: BddVariable, pair: Pair) -> Option<BddPointer>
        requires { Standing self.old.left.now self.old.right.now self.old.job level.0 pair.left.0 pair.right.0 }
        ensures same_out { self.new.out.ghost_name ≡ self.old.out.ghost_name }
        ensures same_memo { self.new.memo.ghost_name ≡ self.old.memo.ghost_name }
        ensures long { (length self.new.out.now ≡ length self.old.out.now) × (length self.new.memo.now ≡ length self.old.memo.now) }
        ensures input { (self.new.left.now ≡ self.old.left.now) × (self.new.right.now ≡ self.old.right.now) × (self.new.job ≡ self.old.job) }
        ensures walks { Walks self.old.left.now self.old.right.now self.old.out.now self.new.out.now self.old.job level.0 self.old.made self.new.made pair.left.0 pair.right.0 result }
    {
        match self.split(pair) {
            Step::Known(r) => Some(r),
            Step::Fork(cut) => {
                let next = BddVariable(cut.level.0 + 1);
                let low = self.node(next, cut.low)?;
                let high = self.node(next, cut.high)?;
                let (r, made) = pool::make_node(
                    self.out,
                    self.job.n,
                    self.job.room,
                    self.made,
                    cut.level,
                    low,
                    high,
                )?;
                self.made = made;
                remember(self.memo, cut.pair.left, cut.pair.right, r);
                Some(r)
            }
        }
    }
}

// The node of a pair, and how many nodes stand in the output then: both tables are descended together.
pub fn join(
    a: &[u32],
    b: &[u32],
    out: &mut [u32],
    memo: &mut [u32],
    job: Job,
    level: BddVariable,
    count: u32,
    pair: Pair,
) -> Option<(BddPointer, u32)>
    requires { Joining a.now b.now out.old memo.old job level.0 count pair.left.0 pair.right.0 }
    ensures { Joins a.now b.now out.old out.new memo.new job level.0 count pair.left.0 pair.right.0 result }
{
    let mut descent = Descent {
        left: a,
        right: b,
        job,
        out,
        made: count,
        memo,
    };
    let joined = descent.node(level, pair);
    let Descent { made, .. } = descent;
    Some((joined?, made))
}

// The whole join: the count of the canonical table in the output, or the place of NODES.
pub fn join_tables(
    a: &[u32],
    b: &[u32],
    out: &mut [u32],
    memo: &mut [u32],
    job: Job,
) -> Result<usize, u64>
    requires { Given a.now b.now out.old memo.old job }
    ensures { Leaves (ltb job.room (length (canon job.n (joined_by a.now b.now job)))) 0 (canon job.n (joined_by a.now b.now job)) out.new result }
{
    making::put_constants(out, job.n);
    memo.fill(0);
    let left = BddPointer(job.left.count - 1);
    let right = BddPointer(job.right.count - 1);
    let joined = join(
        a,
        b,
        out,
        memo,
        job,
        BddVariable(0),
        2,
        Pair { left, right },
    );
    pool::whole_table(joined)
}
