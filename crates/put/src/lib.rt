// A clause set in a pool of nodes: the function of a node, but yes (of a DNF) or no (of a CNF) on the clause's cube. Inner.
// In work: the pool, three words a node, from 0 on; the memo, one word a node, from 3 * cap on; the pool's chains from 4 * cap on.
// One slice and offsets: cut into its areas, each step of the descent would be passed three slices more.
#![tactic(auto)]

ghost use Rattle.std.specs.Prelude.{◌≡◌, cond, false, ◌+◌, ◌*◌, ◌<◌, ◌≤◌, length, get_or, set};
ghost use Rattle.put.specs.declared.Side.TheVariants.{Low, High, Both};
ghost use Rattle.put.specs.Put.{off_low, off_high, keeps, memo_base, stamp_limit, Recalls, Ready, Splits, Settling, Settles, Puts, Forking, word_of};

use entries::Form;
use table::BddPointer;
use valuation::{BddPartialValuation, BddVariable};

// A word of the memo is a stamp times this, and a node number below it: the lent work has one word a node for both.
const MEMO_BASE: u32 = 16384;

// A run over the pool: the marks, the run's number in the memo, and how many nodes the pool can hold.
#[derive(Clone, Copy)]
pub struct Run {
    pub n: u16,
    pub stamp: u32,
    pub cap: u32,
}

// A clause's run, the clause, and the form of its list.
#[derive(Clone, Copy)]
pub struct Job {
    pub run: Run,
    pub clause: BddPartialValuation,
    pub form: Form,
}

// A side of a mark, or both.
#[derive(Clone, Copy, PartialEq, Eq, Debug)]
pub enum Side {
    Low,
    High,
    Both,
}

// Where a node is split: the mark, its two sides, which of them the cube leaves as they are, and whether the mark is the node's own.
// A clause leaves one at most; a cut of a caller's own may leave both.
#[derive(Clone, Copy)]
pub struct Cut {
    pub variable: BddVariable,
    pub low: BddPointer,
    pub high: BddPointer,
    pub kept: Option<Side>,
    // A plain yes or no, as off below: no value stands beside it.
    pub own: bool,
}

impl Cut {
    fn keeps(self, side: Side) -> bool
        ensures { result ≡ keeps side self.kept }
    {
        self.kept == Some(side) || self.kept == Some(Side::Both)
    }
}

// Both are ways on, and neither is a failure: no Option, no Result.
#[derive(Clone, Copy)]
pub enum Step {
    Done(BddPointer),
    Split(Cut),
}

// Which side of a mark the cube leaves as it is: none where the clause has no literal.
#[tactic(auto, using(theory::proofs::Masks::bit_shift))]
pub fn left_out(job: Job, mark: BddVariable) -> Option<Side>
    requires { mark.0 < 64 }
    ensures { (keeps Low result ≡ off_low job mark.0) × (keeps High result ≡ off_high job mark.0) × (keeps Both result ≡ false) }
{
    if !valuation::has_bit(job.clause.fixed, mark) {
        return None;
    }
    if valuation::has_bit(job.clause.values, mark) == job.form.says() {
        Some(Side::Low)
    } else {
        Some(Side::High)
    }
}

// What the memo knows of a node in this run.
pub fn recall(work: &[u32], run: Run, p: BddPointer) -> Option<BddPointer>
    requires { (3 * run.cap + p.0 < length work.now) × (run.cap ≤ memo_base) }
    ensures { Recalls (get_or work.now (3 * run.cap + p.0) 0) run.stamp result }
{
    let word = work[3 * (run.cap as usize) + (p.0 as usize)];
    if word / MEMO_BASE == run.stamp {
        Some(BddPointer(word % MEMO_BASE))
    } else {
        None
    }
}

// The memo's word for a node, where it is split at its own mark.
pub fn keep(work: &mut [u32], run: Run, own: bool, p: BddPointer, answer: BddPointer)
    requires { (3 * run.cap + p.0 < length work.old) × (run.cap ≤ memo_base) × (run.stamp < stamp_limit) × (answer.0 < memo_base) }
    ensures { work.new ≡ cond own (set work.old (3 * run.cap + p.0) (word_of run.stamp answer.0)) work.old }
{
    if own {
        work[3 * (run.cap as usize) + (p.0 as usize)] = run.stamp * MEMO_BASE + answer.0;
    }
}

// What is known of a node at a level at once, or where it is split.
pub fn split(work: &[u32], job: Job, level: u16, count: u32, p: BddPointer, off: bool) -> Step
    requires { Ready work.now job level count p.0 }
    ensures { Splits work.now job level count p.0 off result }
{
    if off {
        return Step::Done(p);
    }
    let rest = job.clause.fixed >> level;
    let term = job.form.term();
    if rest == 0 {
        return Step::Done(term);
    }
    if p == term {
        return Step::Done(p);
    }
    let next = BddVariable(level + u64::trailing_zeros(rest) as u16);
    let variable = table::var_of(work, p);
    if next.0 < variable.0 {
        return Step::Split(Cut {
            variable: next,
            low: p,
            high: p,
            kept: left_out(job, next),
            own: false,
        });
    }
    if let Some(r) = recall(work, job.run, p) {
        return Step::Done(r);
    }
    Step::Split(Cut {
        variable,
        low: table::low_link_of(work, p),
        high: table::high_link_of(work, p),
        kept: left_out(job, variable),
        own: true,
    })
}

// The node over the two sides' answers, and the memo's word.
pub fn settle(
    work: &mut [u32],
    run: Run,
    count: u32,
    cut: Cut,
    p: BddPointer,
    low: BddPointer,
    high: BddPointer,
) -> Option<(BddPointer, u32)>
    requires { Settling work.old run count cut p.0 low.0 high.0 }
    ensures { Settles work.old work.new run count cut p.0 low.0 high.0 result }
{
    if low == cut.low && high == cut.high {
        keep(work, run, cut.own, p, p);
        return Some((p, count));
    }
    let (r, more) = chain::make_node(work, run.n, run.cap, count, cut.variable, low, high)?;
    keep(work, run, cut.own, p, r);
    Some((r, more))
}

// The function of a node at a level, but the constant on the cube's rest; as it is where off is set.
#[cycle(branch_put)]
pub fn put(
    work: &mut [u32],
    job: Job,
    level: u16,
    count: u32,
    p: BddPointer,
    off: bool,
) -> Option<(BddPointer, u32)>
    requires { Ready work.old job level count p.0 }
    ensures { Puts work.old work.new job level count p.0 off result }
{
    match split(&*work, job, level, count, p, off) {
        Step::Done(r) => Some((r, count)),
        Step::Split(cut) => branch(work, job, count, p, cut),
    }
}

// The same for a node that has to be split: low side, high side, node.
#[cycle(branch_put)]
pub fn branch(
    work: &mut [u32],
    job: Job,
    count: u32,
    p: BddPointer,
    cut: Cut,
) -> Option<(BddPointer, u32)>
    requires { Forking work.old job count p.0 cut }
    ensures { Puts work.old work.new job cut.variable.0 count p.0 false result }
{
    let level = cut.variable.0 + 1;
    let (low, lows) = put(work, job, level, count, cut.low, cut.keeps(Side::Low))?;
    let (high, highs) = put(work, job, level, lows, cut.high, cut.keeps(Side::High))?;
    settle(work, job.run, highs, cut, p, low, high)
}
