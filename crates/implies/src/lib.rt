// Two tables descended together without making a node: does an operation of them say no of every case? Inner.
// With and-not it asks whether the left table implies the right one.
#![tactic(auto)]

ghost use Rattle.std.specs.Prelude.{◌≡◌, length};
ghost use Rattle.std.proofs.Props.{props};
ghost use Rattle.theory.specs.Table.{constants};
ghost use Rattle.join.specs.Trees.{tree_set};
ghost use Rattle.join.specs.Joining.{Splitting, Splits, Standing, Knows, task_of, joined_by};
ghost use Rattle.implies.specs.Implying.{Ready, SaysEmpty, Asking, SaysNo};

use join::{Job, Pair, Step};
use table::BddPointer;
use valuation::BddVariable;

// The descent of two tables: its memory holds the pairs of which it is known that their operation says no of every case.
#[derive(Drop)]
struct Descent<'t, 'm> {
    left: &'t [u32],
    right: &'t [u32],
    job: Job,
    memo: &'m mut [u32],
    ghost ready: { Ready left.now right.now memo.now job } by { Prim.hlevel (props, tree_set) },
}

impl Descent<'_, '_> {
    fn split(&self, pair: Pair) -> Step
        requires { Splitting self.now.left.now self.now.right.now self.now.memo.now self.now.job pair.left.0 pair.right.0 }
        ensures { Splits self.now.left.now self.now.right.now self.now.memo.now self.now.job pair.left.0 pair.right.0 result }
    {
        join::split(self.left, self.right, self.memo, self.job, pair)
    }

    // No for every case below a pair.
    fn says_no(&mut self, level: BddVariable, pair: Pair) -> bool
        requires { Standing self.old.left.now self.old.right.now self.old.job level.0 pair.left.0 pair.right.0 }
        ensures same_memo { self.new.memo.ghost_name ≡ self.old.memo.ghost_name }
        ensures long { length self.new.memo.now ≡ length self.old.memo.now }
        ensures input { (self.new.left.now ≡ self.old.left.now) × (self.new.right.now ≡ self.old.right.now) × (self.new.job ≡ self.old.job) }
        ensures empty { SaysEmpty self.old.left.now self.old.right.now self.old.job level.0 pair.left.0 pair.right.0 result }
    {
        let cut = match self.split(pair) {
            Step::Known(r) => return r.0 == 0,
            Step::Fork(cut) => cut,
        };
        let next = BddVariable(cut.level.0 + 1);
        if !self.says_no(next, cut.low) || !self.says_no(next, cut.high) {
            return false;
        }
        join::remember(self.memo, cut.pair.left, cut.pair.right, BddPointer(0));
        true
    }
}

// No for every case below a pair. The memory holds only what is so: a pair that an earlier call left in it is not descended again.
pub fn says_no(
    a: &[u32],
    b: &[u32],
    memo: &mut [u32],
    job: Job,
    level: BddVariable,
    pair: Pair,
) -> bool
    requires { Ready a.now b.now memo.old job × Standing a.now b.now job level.0 pair.left.0 pair.right.0 }
    ensures empty { SaysEmpty a.now b.now job level.0 pair.left.0 pair.right.0 result }
    ensures known { Knows (task_of a.now b.now job) memo.new (constants job.n) }
{
    let mut descent = Descent {
        left: a,
        right: b,
        job,
        memo,
    };
    descent.says_no(level, pair)
}

// No for every case, of two whole tables.
pub fn tables_say_no(a: &[u32], b: &[u32], memo: &mut [u32], job: Job) -> bool
    requires { Asking a.now b.now memo.old job }
    ensures { SaysNo job.n (joined_by a.now b.now job) result }
{
    memo.fill(0);
    let left = BddPointer(job.left.count - 1);
    let right = BddPointer(job.right.count - 1);
    says_no(a, b, memo, job, BddVariable(0), Pair { left, right })
}
