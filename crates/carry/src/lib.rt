// One table walked into another, with a mark set or yes and no exchanged on the way. Inner.
#![tactic(auto)]

ghost use Rattle.std.specs.Prelude.{◌≡◌, true, not, ◌+◌, ◌*◌, ◌<◌, length, get_or, set};
ghost use Rattle.theory.specs.Tree.{mapped, cofactor};
ghost use Rattle.theory.specs.Table.{child_of, num, truth, meaning};
ghost use Rattle.theory.specs.Words.{stride, node_at, nodes};
ghost use Rattle.theory.proofs.Again.{turn};
ghost use Rattle.pool.specs.Pool.{Noding};
ghost use Rattle.carry.specs.Carry.{flip, plain, Recalls, Splits, Ready, Walks, Carries};
ghost use Rattle.carry.specs.Whole.{Placing, along, CanonLeft};

use table::{BddPointer, Table};
use valuation::BddVariable;

// How a table is carried: over n marks into room nodes, with the variable set to the value (n for none), yes and no exchanged or not.
// Copied in each call: so ordered, what a call reads at once lies where a store's start or middle lay.
#[derive(Clone, Copy)]
pub struct Way {
    pub exchange: bool,
    pub n: u16,
    pub room: u32,
    pub variable: BddVariable,
    pub value: bool,
}

impl Way {
    // The table as it is.
    pub fn plain(n: u16, room: u32) -> Way
        ensures { result ≡ plain n room }
    {
        Way {
            exchange: false,
            n,
            room,
            variable: BddVariable(n),
            value: false,
        }
    }

    // With yes and no exchanged.
    fn exchanged(self) -> Way
        ensures { result ≡ record self { exchange = true } }
    {
        Way {
            exchange: true,
            ..self
        }
    }

    // With the variable set to the value.
    fn at(self, variable: BddVariable, value: bool) -> Way
        ensures { result ≡ record self { variable = variable; value = value } }
    {
        Way {
            variable,
            value,
            ..self
        }
    }
}

// Where a node is split.
#[derive(Clone, Copy)]
struct Cut {
    variable: BddVariable,
    low: BddPointer,
    high: BddPointer,
}

// Both are ways on, and neither is a failure: no Option, no Result.
#[derive(Clone, Copy)]
enum Step {
    Done(BddPointer),
    Split(Cut),
}

// A table on its way into the output, where a number of nodes stands: the memo has a word for each node of the table.
#[derive(Drop)]
struct Carrier<'t, 'o, 'm> {
    bdd: &'t [u32],
    count: u32,
    way: Way,
    out: &'o mut [u32],
    made: u32,
    memo: &'m mut [u32],
    ghost ready: { Ready bdd.now out.now memo.now way count made },
}

impl Carrier<'_, '_, '_> {
    // A node's number in the output where that is known at once; else its mark, and its children on the way.
    fn split(&self, a: BddPointer) -> Step
        requires { a.0 < self.now.count }
        ensures { Splits self.now.bdd.now self.now.memo.now self.now.way a.0 result }
    {
        if a.0 < 2 {
            return Step::Done(constant_for(self.way, a));
        }
        if let Some(r) = recall(self.memo, a) {
            return Step::Done(r);
        }
        let variable = table::var_of(self.bdd, a);
        let low = child_along(self.bdd, self.way, variable, a, false);
        let high = child_along(self.bdd, self.way, variable, a, true);
        Step::Split(Cut {
            variable,
            low,
            high,
        })
    }

    // Node a of the table, walked into the output: low child, high child, node. None where there is no room for it.
    fn node(&mut self, a: BddPointer) -> Option<BddPointer>
        requires { a.0 < self.old.count }
        ensures same_out { self.new.out.ghost_name ≡ self.old.out.ghost_name }
        ensures same_memo { self.new.memo.ghost_name ≡ self.old.memo.ghost_name }
        ensures long { (length self.new.out.now ≡ length self.old.out.now) × (length self.new.memo.now ≡ length self.old.memo.now) }
        ensures input { (self.new.bdd.now ≡ self.old.bdd.now) × (self.new.count ≡ self.old.count) × (self.new.way ≡ self.old.way) }
        ensures walks { Walks self.old.bdd.now self.old.out.now self.new.out.now self.old.way self.old.count self.old.made self.new.made a.0 result }
    {
        let way = self.way;
        match self.split(a) {
            Step::Done(r) => Some(r),
            Step::Split(cut) => {
                let low = self.node(cut.low)?;
                let high = self.node(cut.high)?;
                let (r, made) = pool::make_node(
                    self.out,
                    way.n,
                    way.room,
                    self.made,
                    cut.variable,
                    low,
                    high,
                )?;
                self.made = made;
                keep(self.memo, a, r);
                Some(r)
            }
        }
    }
}

// A constant, exchanged or not.
fn constant_for(way: Way, a: BddPointer) -> BddPointer
    requires { a.0 < 2 }
    ensures { result.0 ≡ num (flip way.exchange (truth a.0)) }
{
    if way.exchange { BddPointer(1 - a.0) } else { a }
}

// What the memo knows of a node: its word is one more than the node's number in the output, or 0.
fn recall(memo: &[u32], a: BddPointer) -> Option<BddPointer>
    requires { a.0 < length memo.now }
    ensures { Recalls (get_or memo.now a.0 0) result }
{
    memo[a.0 as usize].checked_sub(1).map(BddPointer)
}

fn keep(memo: &mut [u32], a: BddPointer, r: BddPointer)
    requires { (a.0 < length memo.old) × (r.0 + 1 < 4294967296) }
    ensures { memo.new ≡ set memo.old a.0 (r.0 + 1) }
{
    memo[a.0 as usize] = r.0 + 1;
}

fn child_of(bdd: &[u32], a: BddPointer, bit: bool) -> BddPointer
    requires { stride * a.0 + 2 < length bdd.now }
    ensures { result.0 ≡ child_of bit (node_at bdd.now a.0) }
{
    if bit {
        table::high_link_of(bdd, a)
    } else {
        table::low_link_of(bdd, a)
    }
}

// The child for a bit; where the node's mark is set, the child for its value.
fn child_along(bdd: &[u32], way: Way, variable: BddVariable, a: BddPointer, bit: bool) -> BddPointer
    requires { stride * a.0 + 2 < length bdd.now }
    ensures { result.0 ≡ child_of (turn way.variable.0 way.value variable.0 bit) (node_at bdd.now a.0) }
{
    let way_bit = if variable.0 == way.variable.0 {
        way.value
    } else {
        bit
    };
    child_of(bdd, a, way_bit)
}

// Node a of the table, walked into the output behind the nodes that stand there: its number, and how many stand there then.
// The memo is empty, or right about the output: a node that an earlier call left in it is not walked again.
pub fn carry(
    bdd: &[u32],
    out: &mut [u32],
    memo: &mut [u32],
    way: Way,
    count: u32,
    made: u32,
    a: BddPointer,
) -> Option<(BddPointer, u32)>
    requires { Ready bdd.now out.old memo.old way count made × (a.0 < count) }
    ensures { Carries bdd.now out.old out.new memo.new way count made a.0 result }
{
    let mut carrier = Carrier {
        bdd,
        count,
        way,
        out,
        made,
        memo,
    };
    let carried = carrier.node(a);
    let Carrier { made, .. } = carrier;
    Some((carried?, made))
}

// The whole table, carried into the output: the count of its canonical table, or the place of NODES.
fn carry_table(table: Table, way: Way, out: &mut [u32], memo: &mut [u32]) -> Result<usize, u64>
    requires { (way.n ≡ table.n) × Placing out.old memo.old table.count way.room }
    ensures { CanonLeft way.n way.room (along way (nodes table.entry.count table.entry.words.now)) out.new result }
{
    memo.fill(0);
    making::put_constants(out, way.n);
    pool::whole_table(carry(
        table.words,
        out,
        memo,
        way,
        table.count as u32,
        2,
        table.root,
    ))
}

// The table of the same function, reduced and numbered.
pub fn reduce(table: Table, room: usize, out: &mut [u32], memo: &mut [u32]) -> Result<usize, u64>
    requires { Placing out.old memo.old table.count room }
    ensures { CanonLeft table.entry.n room (meaning table.entry.n (nodes table.entry.count table.entry.words.now)) out.new result }
{
    let way = Way::plain(table.n, room as u32);
    carry_table(table, way, out, memo)
}

// The table that says no where the given one says yes.
pub fn exchange(table: Table, room: usize, out: &mut [u32], memo: &mut [u32]) -> Result<usize, u64>
    requires { Placing out.old memo.old table.count room }
    ensures { CanonLeft table.entry.n room (mapped not (meaning table.entry.n (nodes table.entry.count table.entry.words.now))) out.new result }
{
    let way = Way::plain(table.n, room as u32).exchanged();
    carry_table(table, way, out, memo)
}

// The table with the mark set to the value.
pub fn restrict(
    table: Table,
    variable: BddVariable,
    value: bool,
    room: usize,
    out: &mut [u32],
    memo: &mut [u32],
) -> Result<usize, u64>
    requires { Placing out.old memo.old table.count room }
    ensures { CanonLeft table.entry.n room (cofactor variable.0 value (meaning table.entry.n (nodes table.entry.count table.entry.words.now))) out.new result }
{
    let way = Way::plain(table.n, room as u32).at(variable, value);
    carry_table(table, way, out, memo)
}
