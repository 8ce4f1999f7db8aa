// The cover check: whether a list of clauses and a table say the same of every case.
// An entry's parameters are those of the C interface, one by one; what an entry hands on stays in that order.
#![tactic(auto)]

ghost use Rattle.std.specs.Prelude.{◌≡◌, ◌+◌, ◌*◌, ◌-◌, ◌<◌, length};
ghost use Rattle.theory.specs.Table.{tree_of, meaning};
ghost use Rattle.theory.specs.Words.{stride, nodes};
ghost use Rattle.refusal.specs.Buffers.{work_after};
ghost use Rattle.refusal.specs.Verdict.{gives, replied, judged};
ghost use Rattle.refusal.specs.Told.{reply_of};
ghost use Rattle.table.specs.Inspection.{pointer, inspection_reply, root_of};
ghost use Rattle.cover.specs.Cover.{cover_words, over_cover, short_cover, Within, cover_findings, first_differing, cover_answer, covers, checks_cover};
ghost use Rattle.cover.specs.Compare.{Paired, Comparing, Brought, Covering};

use carry::Way;
use entries::{Clauses, Form};
use refusal::{Refusal, RefusalKind, Told, refuse_if};
use table::{BddPointer, Inspection, Table};
use valuation::BddVariable;

// What the check finds: list and table agree, or the first case that they tell apart. No Option: the names say which of the two is the good answer.
#[derive(Clone, Copy, PartialEq, Eq, Debug)]
pub enum Cover {
    Agrees,
    Differs(u64),
}

impl Told for Cover {
    ghost values = { cover_words };

    fn tell(self, out: &mut [u64]) {
        match self {
            Self::Agrees => refusal::tell_with(0, (), out),
            Self::Differs(case) => refusal::tell_with(1, case, out),
        }
    }
}

#[tactic(auto, unfolding(crate::specs::Cover::over_cover))]
fn over_cover(n: u16, count: usize, clause_count: usize, room: usize) -> bool
    ensures { result ≡ over_cover n count clause_count room }
{
    table::over_limit(n, count) || builders::over_list(n, clause_count) || making::over_room(room)
}

#[tactic(auto, unfolding(crate::specs::Cover::short_cover))]
fn short_cover(
    count: usize,
    bdd: &[u32],
    clause_count: usize,
    clauses: &[u64],
    room: usize,
    work: &[u32],
) -> bool
    requires { Within count clause_count room }
    ensures { result ≡ short_cover count bdd.now clause_count clauses.now room work.now }
{
    table::too_short(count, bdd)
        || builders::short_list::<Clauses>(clause_count, clauses)
        || making::short_work(room.max(count), work)
}

// The tests of a table, a list, a room and work, in the order of their numbers.
#[tactic(auto, using(crate::proofs::AdmitLaws::limits, crate::proofs::AdmitLaws::limited, crate::proofs::AdmitLaws::sized, table::proofs::InspectLaws::within, table::proofs::InspectLaws::long), unfolding(refusal::specs::Number::order, refusal::specs::Verdict::judged, refusal::specs::Verdict::tried, refusal::specs::Verdict::first_of, refusal::specs::Verdict::replied, table::specs::Inspection::roots))]
fn cover_root(
    n: u16,
    count: usize,
    bdd: &[u32],
    clause_count: usize,
    clauses: &[u64],
    room: usize,
    work: &[u32],
) -> Result<BddPointer, Refusal>
    ensures { reply_of pointer result ≡ replied (judged (cover_findings n count bdd.now clause_count clauses.now room work.now) (root_of count)) }
{
    refuse_if(
        over_cover(n, count, clause_count, room),
        RefusalKind::Limit,
        0,
    )?;
    let short = short_cover(count, bdd, clause_count, clauses, room, work);
    refuse_if(short, RefusalKind::Short, 0)?;
    let bad = builders::first_bad::<Clauses>(n, clause_count, clauses);
    refuse_if(bad < clause_count, RefusalKind::Clause, bad as u64)?;
    table::ordered_root(n, count, bdd)
}

#[tactic(auto, using(table::proofs::InspectLaws::inspected_reply))]
fn admit_cover(
    n: u16,
    count: usize,
    bdd: &[u32],
    clause_count: usize,
    clauses: &[u64],
    room: usize,
    work: &[u32],
) -> Inspection
    ensures { inspection_reply result ≡ replied (judged (cover_findings n count bdd.now clause_count clauses.now room work.now) (root_of count)) }
{
    Inspection::from(cover_root(n, count, bdd, clause_count, clauses, room, work))
}

// The first case, from a level on, that two nodes of the pool tell apart: high only where the low sides are one node.
fn first_differing(
    n: u16,
    level: u16,
    count: u32,
    pool: &[u32],
    p: BddPointer,
    q: BddPointer,
) -> u64
    requires { Paired n level count pool.now p.0 q.0 }
    ensures { result ≡ first_differing (tree_of (n - level) (nodes count pool.now) level p.0) (tree_of (n - level) (nodes count pool.now) level q.0) }
{
    if level == n {
        return 0;
    }
    let mark = BddVariable(level);
    let low = join::step_to(pool, p, mark, false);
    let other_low = join::step_to(pool, q, mark, false);
    if low.0 == other_low.0 {
        let high = join::step_to(pool, p, mark, true);
        let other_high = join::step_to(pool, q, mark, true);
        return 2 * first_differing(n, level + 1, count, pool, high, other_high) + 1;
    }
    2 * first_differing(n, level + 1, count, pool, low, other_low)
}

// The given table carried into the pool, behind the canonical one at its front: its root there, and the pool's count.
fn bring(table: Table, made: usize, pool: &mut [u32], memo: &mut [u32]) -> (BddPointer, u32)
    requires { Comparing table.n table.count made pool.old memo.old }
    ensures { Brought table.entry.n (meaning table.entry.n (nodes made pool.old)) (meaning table.entry.n (nodes table.entry.count table.entry.words.now)) made pool.new result.0.0 result.1 }
{
    making::put_constants(pool, table.n);
    memo.fill(0);
    let held = made.max(2);
    let way = Way::plain(table.n, (held + table.count) as u32);
    let carried = carry::carry(
        table.words,
        pool,
        memo,
        way,
        table.count as u32,
        held as u32,
        table.root,
    );
    match carried {
        Some(brought) => brought,
        None => unreachable!(),
    }
}

// The canonical table at the front of the pool against the given one: in one pool equal functions are one node.
fn compare(table: Table, made: usize, pool: &mut [u32], memo: &mut [u32]) -> Cover
    requires { Comparing table.n table.count made pool.old memo.old }
    ensures { gives (cover_words result) ≡ replied (cover_answer (meaning table.entry.n (nodes made pool.old)) (meaning table.entry.n (nodes table.entry.count table.entry.words.now))) }
{
    let (p, total) = bring(table, made, pool, memo);
    let top = BddPointer((made - 1) as u32);
    if top.0 == p.0 {
        return Cover::Agrees;
    }
    Cover::Differs(first_differing(table.n, 0, total, &*pool, top, p))
}

// The list's table, built in the work and brought to its front, against the given one.
fn compare_list(
    table: Table,
    clause_count: usize,
    clauses: &[u64],
    room: usize,
    memory: &mut [u32],
    work: &mut [u32],
) -> Result<Cover, Refusal>
    requires { Covering table.n table.count clause_count clauses.now room memory.old work.old }
    ensures { reply_of cover_words result ≡ replied (covers table.entry.n table.entry.count table.entry.words.now clause_count clauses.now room) }
{
    let tabled = build::build::<Clauses>(
        table.n,
        clauses,
        clause_count as u32,
        Form::Dnf,
        room as u32,
        memory,
        work,
    );
    match tabled {
        Err(place) => Err(Refusal {
            kind: RefusalKind::Nodes,
            place,
        }),
        Ok(made) => {
            build::copy_nodes(work, &*memory, made as u32);
            Ok(compare(table, made, work, memory))
        }
    }
}

// Whether the list, as a DNF, and the table say the same of every case.
pub fn check_cover(
    n: u16,
    count: usize,
    bdd: &[u32],
    clause_count: usize,
    clauses: &[u64],
    room: usize,
    work: &mut [u32],
) -> Result<Cover, Refusal>
    ensures result_value { reply_of cover_words result ≡ replied (checks_cover n count bdd.now clause_count clauses.now room work.old) }
    ensures work_after { work.new ≡ work_after (checks_cover n count bdd.now clause_count clauses.now room work.old) work.old }
{
    let admitted = admit_cover(n, count, bdd, clause_count, clauses, room, &*work);
    let Inspection::Sound(root) = admitted else {
        return Err(admitted.refusal());
    };
    let table = Table {
        n,
        count,
        words: bdd,
        root,
    };
    // A local, as there is no heap: the build takes all of the work.
    let mut memory = [0u32; 12288];
    let covered = compare_list(table, clause_count, clauses, room, &mut memory, work);
    work.fill(0);
    covered
}
