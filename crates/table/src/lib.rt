// Node tables: their words, inspection and evaluation.
#![tactic(auto, using(crate::proofs::NodeLaws::node_read, crate::proofs::InspectLaws::within, crate::proofs::InspectLaws::long, crate::proofs::InspectLaws::inspected_reply, crate::proofs::CaseLaws::shifted_over, crate::proofs::AdmissionLaws::case_refused), unfolding(theory::specs::Table::same, theory::specs::Table::link_ok, theory::specs::Table::node_ok, refusal::specs::Number::order, refusal::specs::Verdict::judged, refusal::specs::Verdict::tried, refusal::specs::Verdict::first_of, refusal::specs::Verdict::replied, crate::specs::Inspection::inspection_reply, crate::specs::Inspection::roots, crate::specs::Inspection::inspects, crate::specs::Case::admits_case))]

ghost use Rattle.std.specs.Prelude.{◌≡◌, true, false, ◌+◌, ◌*◌, ◌-◌, ◌<◌, ◌≤◌, length};
ghost use Rattle.theory.specs.Table.{node, same, link_ok, node_ok};
ghost use Rattle.theory.specs.Words.{stride, node_at, nodes, with_node};
ghost use Rattle.refusal.specs.Limits.{max_marks, max_nodes};
ghost use Rattle.refusal.specs.Verdict.{replied};
ghost use Rattle.refusal.specs.Told.{truth, reply_of};
ghost use Rattle.table.specs.Inspection.{pointer, inspection_reply, IsRefused, refused_by, inspected, over_limit, too_short, first_bad, roots, inspects, SoundTable};
ghost use Rattle.table.specs.Case.{over_case, lowest_over, admits_case, table_says, child_for, evaluates};

use refusal::{MAX_MARKS, MAX_NODES, Refusal, RefusalKind, Told, refuse_if};
use valuation::BddVariable;

// A node number.
#[derive(Clone, Copy, PartialEq, Eq, Debug)]
pub struct BddPointer(pub u32);

// A table that passed inspection. Where the facts of an admission are at hand, it is put together; no function that is given one inspects it again.
#[derive(Clone, Copy, Drop)]
pub struct Table<'a> {
    pub n: u16,
    pub count: usize,
    pub words: &'a [u32],
    pub root: BddPointer,
    ghost sound: { SoundTable n count words.now root.0 },
}

// The words of a node: mark, low, high.
pub const NODE_WORDS: usize = 3;

// What inspection finds: a sound table's root, or the refusal. The specification names this form.
#[derive(Clone, Copy, PartialEq, Eq, Debug)]
pub enum Inspection {
    Sound(BddPointer),
    Refused(Refusal),
}

impl Inspection {
    // The root, or the refusal.
    pub fn answer(self) -> Result<BddPointer, Refusal>
        ensures { reply_of pointer result ≡ inspection_reply self }
    {
        match self {
            Self::Sound(root) => Ok(root),
            Self::Refused(refusal) => Err(refusal),
        }
    }

    // The refusal of a table that is not sound.
    pub fn refusal(self) -> Refusal
        requires { IsRefused self }
        ensures { self ≡ refused_by result }
    {
        match self {
            Self::Refused(refusal) => refusal,
            Self::Sound(_) => unreachable!(),
        }
    }
}

impl From<Result<BddPointer, Refusal>> for Inspection {
    ghost from_gives = { λ r i. i ≡ inspected r };

    fn from(answer: Result<BddPointer, Refusal>) -> Inspection {
        match answer {
            Ok(root) => Inspection::Sound(root),
            Err(refusal) => Inspection::Refused(refusal),
        }
    }
}

impl Told for BddPointer {
    ghost values = { pointer };

    fn tell(self, out: &mut [u64]) {
        refusal::tell_with(u64::from(self.0), (), out);
    }
}

// The mark's word, which before inspection may be any.
pub fn mark_word(bdd: &[u32], p: BddPointer) -> u32
    requires { stride * p.0 < length bdd.now }
    ensures { result ≡ (node_at bdd.now p.0).mark }
{
    let i = NODE_WORDS * (p.0 as usize);
    bdd[i]
}

pub fn var_of(bdd: &[u32], p: BddPointer) -> BddVariable
    requires { (stride * p.0 < length bdd.now) × ((node_at bdd.now p.0).mark ≤ max_marks) }
    ensures { result.0 ≡ (node_at bdd.now p.0).mark }
{
    BddVariable(mark_word(bdd, p) as u16)
}

pub fn low_link_of(bdd: &[u32], p: BddPointer) -> BddPointer
    requires { stride * p.0 + 1 < length bdd.now }
    ensures { result.0 ≡ (node_at bdd.now p.0).low }
{
    let i = NODE_WORDS * (p.0 as usize) + 1;
    BddPointer(bdd[i])
}

pub fn high_link_of(bdd: &[u32], p: BddPointer) -> BddPointer
    requires { stride * p.0 + 2 < length bdd.now }
    ensures { result.0 ≡ (node_at bdd.now p.0).high }
{
    let i = NODE_WORDS * (p.0 as usize) + 2;
    BddPointer(bdd[i])
}

// A link of node p leads below p, to a greater mark.
fn link_ok(count: usize, bdd: &[u32], p: BddPointer, to: BddPointer) -> bool
    requires { (p.0 < count) × (stride * count ≤ length bdd.now) }
    ensures { result ≡ link_ok (nodes count bdd.now) p.0 to.0 }
{
    to.0 < p.0 && mark_word(bdd, p) < mark_word(bdd, to)
}

// Stores a node at its place.
pub fn put_node(
    bdd: &mut [u32],
    place: u32,
    variable: BddVariable,
    low: BddPointer,
    high: BddPointer,
)
    requires { stride * place + stride ≤ length bdd.old }
    ensures { bdd.new ≡ with_node bdd.old place variable.0 low.0 high.0 }
{
    let at = NODE_WORDS * (place as usize);
    bdd[at] = variable.0 as u32;
    bdd[at + 1] = low.0;
    bdd[at + 2] = high.0;
}

// Node p has that mark and those links. One word after the other: a search over `a && b && c` took 1.8 times as long.
pub fn same_node(
    bdd: &[u32],
    p: BddPointer,
    variable: BddVariable,
    low: BddPointer,
    high: BddPointer,
) -> bool
    requires { stride * p.0 + 2 < length bdd.now }
    ensures { result ≡ same (node_at bdd.now p.0) (node variable.0 low.0 high.0) }
{
    if mark_word(bdd, p) != variable.0 as u32 {
        return false;
    }
    if low_link_of(bdd, p).0 != low.0 {
        return false;
    }
    high_link_of(bdd, p).0 == high.0
}

// Node p is as an ordered table has it: a constant, or a mark below n over two sound links.
fn node_ok(n: u16, count: usize, bdd: &[u32], p: BddPointer) -> bool
    requires { (p.0 < count) × (stride * count ≤ length bdd.now) }
    ensures { result ≡ node_ok n (nodes count bdd.now) p.0 }
{
    if p.0 < 2 {
        return same_node(bdd, p, BddVariable(n), p, p);
    }
    mark_word(bdd, p) < n as u32
        && link_ok(count, bdd, p, low_link_of(bdd, p))
        && link_ok(count, bdd, p, high_link_of(bdd, p))
}

// The first node that is not as ordered asks, or the count.
fn first_bad(n: u16, count: usize, bdd: &[u32]) -> usize
    requires { (count ≤ max_nodes) × (stride * count ≤ length bdd.now) }
    ensures { result ≡ first_bad n count bdd.now }
{
    for i in 0..count {
        if !node_ok(n, count, bdd, BddPointer(i as u32)) {
            return i;
        }
    }
    count
}

#[tactic(auto, unfolding(crate::specs::Inspection::over_limit))]
pub fn over_limit(n: u16, count: usize) -> bool
    ensures { result ≡ over_limit n count }
{
    n > MAX_MARKS || count < 1 || count > MAX_NODES
}

#[tactic(auto, unfolding(crate::specs::Inspection::too_short))]
pub fn too_short(count: usize, bdd: &[u32]) -> bool
    requires { count ≤ max_nodes }
    ensures { result ≡ too_short count bdd.now }
{
    bdd.len() < NODE_WORDS * count
}

// The last of a table's tests: its root, where every node is as ordered asks.
pub fn ordered_root(n: u16, count: usize, bdd: &[u32]) -> Result<BddPointer, Refusal>
    requires { (1 ≤ count) × (count ≤ max_nodes) × (stride * count ≤ length bdd.now) }
    ensures { reply_of pointer result ≡ replied (roots n count bdd.now) }
{
    let bad = first_bad(n, count, bdd);
    refuse_if(bad < count, RefusalKind::Table, bad as u64)?;
    Ok(BddPointer((count - 1) as u32))
}

// The tests of a table, in the order of their numbers.
fn table_root(n: u16, count: usize, bdd: &[u32]) -> Result<BddPointer, Refusal>
    ensures { reply_of pointer result ≡ replied (inspects n count bdd.now) }
{
    refuse_if(over_limit(n, count), RefusalKind::Limit, 0)?;
    refuse_if(too_short(count, bdd), RefusalKind::Short, 0)?;
    ordered_root(n, count, bdd)
}

// Looks a table over: its root where it is ordered, else the refusal.
pub fn inspect(n: u16, count: usize, bdd: &[u32]) -> Inspection
    ensures { inspection_reply result ≡ replied (inspects n count bdd.now) }
{
    Inspection::from(table_root(n, count, bdd))
}

fn over_case(n: u16, case: u64) -> bool
    requires { n ≤ max_marks }
    ensures { result ≡ over_case n case }
{
    case >> n != 0
}

// The lowest mark from n up that the case has.
fn lowest_over(n: u16, case: u64) -> u64
    requires { (n ≤ max_marks) × (true ≡ over_case n case) }
    ensures { result ≡ lowest_over n case }
{
    n as u64 + (case >> n).trailing_zeros() as u64
}

// The tests of a table and a case, in the order of their numbers.
fn case_root(n: u16, count: usize, bdd: &[u32], case: u64) -> Result<BddPointer, Refusal>
    ensures { reply_of pointer result ≡ replied (admits_case n count bdd.now case) }
{
    refuse_if(over_limit(n, count), RefusalKind::Limit, 0)?;
    refuse_if(too_short(count, bdd), RefusalKind::Short, 0)?;
    // No refuse_if: a case within n marks has no such place.
    if over_case(n, case) {
        return Err(Refusal {
            kind: RefusalKind::Variable,
            place: lowest_over(n, case),
        });
    }
    ordered_root(n, count, bdd)
}

fn admit_case(n: u16, count: usize, bdd: &[u32], case: u64) -> Inspection
    ensures { inspection_reply result ≡ replied (admits_case n count bdd.now case) }
{
    Inspection::from(case_root(n, count, bdd, case))
}

// The child to which the case leads from node p.
fn child_for(bdd: &[u32], p: BddPointer, case: u64) -> BddPointer
    requires { (stride * p.0 + 2 < length bdd.now) × ((node_at bdd.now p.0).mark ≤ max_marks) }
    ensures { result.0 ≡ child_for (node_at bdd.now p.0) case }
{
    if valuation::has_bit(case, var_of(bdd, p)) {
        high_link_of(bdd, p)
    } else {
        low_link_of(bdd, p)
    }
}

impl Table<'_> {
    // The mark of one of its nodes.
    pub fn var_of(&self, p: BddPointer) -> BddVariable
        requires { p.0 < self.now.count }
        ensures { result.0 ≡ (node_at self.now.words.now p.0).mark }
    {
        var_of(self.words, p)
    }

    pub fn low_link_of(&self, p: BddPointer) -> BddPointer
        requires { p.0 < self.now.count }
        ensures { result.0 ≡ (node_at self.now.words.now p.0).low }
    {
        low_link_of(self.words, p)
    }

    pub fn high_link_of(&self, p: BddPointer) -> BddPointer
        requires { p.0 < self.now.count }
        ensures { result.0 ≡ (node_at self.now.words.now p.0).high }
    {
        high_link_of(self.words, p)
    }

    // What the table says of the case: its bits choose the way from the root to node 0 or 1.
    fn says_yes(self, case: u64) -> bool
        ensures { result ≡ table_says self.entry.n self.entry.count self.entry.words.now case }
    {
        let mut p = self.root;
        // How many steps there are, the links say.
        while p.0 > 1 {
            p = child_for(self.words, p, case);
        }
        p.0 == 1
    }
}

// What a table says of a case.
pub fn eval_in(n: u16, count: usize, bdd: &[u32], case: u64) -> Result<bool, Refusal>
    ensures { reply_of truth result ≡ replied (evaluates n count bdd.now case) }
{
    let admitted = admit_case(n, count, bdd, case);
    let Inspection::Sound(root) = admitted else {
        return Err(admitted.refusal());
    };
    let table = Table {
        n,
        count,
        words: bdd,
        root,
    };
    Ok(table.says_yes(case))
}
