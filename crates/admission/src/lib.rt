// The tests of entries that take work, in the order of their numbers. Inner.
#![tactic(auto, using(table::proofs::InspectLaws::within, table::proofs::InspectLaws::long, table::proofs::InspectLaws::inspected_reply, making::proofs::RoomLaws::roomy), unfolding(refusal::specs::Number::order, refusal::specs::Verdict::judged, refusal::specs::Verdict::tried, refusal::specs::Verdict::first_of, refusal::specs::Verdict::replied, table::specs::Inspection::roots, crate::specs::Admission::sizes, crate::specs::Admission::pair_sizes))]

ghost use Rattle.std.specs.Prelude.{◌≡◌};
ghost use Rattle.refusal.specs.Verdict.{replied, judged};
ghost use Rattle.refusal.specs.Told.{reply_of};
ghost use Rattle.table.specs.Inspection.{pointer, inspection_reply, root_of};
ghost use Rattle.admission.specs.Admission.{work_findings, table_room_findings, mark_findings, pair_findings, sizes, pair_sizes, over_mark};

use refusal::{Refusal, RefusalKind, refuse_if};
use table::{BddPointer, Inspection};
use valuation::BddVariable;

fn over_mark(n: u16, variable: BddVariable) -> bool
    ensures { result ≡ over_mark n variable.0 }
{
    n <= variable.0
}

// The tests of a table and work.
fn work_root(n: u16, count: usize, bdd: &[u32], work: &[u32]) -> Result<BddPointer, Refusal>
    ensures { reply_of pointer result ≡ replied (judged (work_findings n count bdd.now work.now) (root_of count)) }
{
    refuse_if(table::over_limit(n, count), RefusalKind::Limit, 0)?;
    refuse_if(table::too_short(count, bdd), RefusalKind::Short, 0)?;
    refuse_if(making::short_work(count, work), RefusalKind::Short, 0)?;
    table::ordered_root(n, count, bdd)
}

// A table and work.
pub fn admit_table_work(n: u16, count: usize, bdd: &[u32], work: &[u32]) -> Inspection
    ensures { inspection_reply result ≡ replied (judged (work_findings n count bdd.now work.now) (root_of count)) }
{
    Inspection::from(work_root(n, count, bdd, work))
}

// LIMIT or SHORT of a table, a room, an output and work, whichever comes first.
fn check_sizes(
    n: u16,
    count: usize,
    bdd: &[u32],
    room: usize,
    out: &[u32],
    work: &[u32],
) -> Result<(), Refusal>
    ensures { result ≡ sizes n count bdd.now room out.now work.now }
{
    refuse_if(table::over_limit(n, count), RefusalKind::Limit, 0)?;
    refuse_if(making::over_room(room), RefusalKind::Limit, 0)?;
    refuse_if(table::too_short(count, bdd), RefusalKind::Short, 0)?;
    refuse_if(making::short_output(room, out), RefusalKind::Short, 0)?;
    refuse_if(
        making::short_work(room.max(count), work),
        RefusalKind::Short,
        0,
    )
}

// The tests of a table, a room, an output and work.
fn room_root(
    n: u16,
    count: usize,
    bdd: &[u32],
    room: usize,
    out: &[u32],
    work: &[u32],
) -> Result<BddPointer, Refusal>
    ensures { reply_of pointer result ≡ replied (judged (table_room_findings n count bdd.now room out.now work.now) (root_of count)) }
{
    check_sizes(n, count, bdd, room, out, work)?;
    table::ordered_root(n, count, bdd)
}

// A table, a room, an output and work.
pub fn admit_table_room(
    n: u16,
    count: usize,
    bdd: &[u32],
    room: usize,
    out: &[u32],
    work: &[u32],
) -> Inspection
    ensures { inspection_reply result ≡ replied (judged (table_room_findings n count bdd.now room out.now work.now) (root_of count)) }
{
    Inspection::from(room_root(n, count, bdd, room, out, work))
}

// The same tests with a mark's.
fn mark_root(
    n: u16,
    count: usize,
    bdd: &[u32],
    variable: BddVariable,
    room: usize,
    out: &[u32],
    work: &[u32],
) -> Result<BddPointer, Refusal>
    ensures { reply_of pointer result ≡ replied (judged (mark_findings n count bdd.now variable.0 room out.now work.now) (root_of count)) }
{
    check_sizes(n, count, bdd, room, out, work)?;
    refuse_if(
        over_mark(n, variable),
        RefusalKind::Variable,
        u64::from(variable.0),
    )?;
    table::ordered_root(n, count, bdd)
}

// The same with a mark.
pub fn admit_table_room_mark(
    n: u16,
    count: usize,
    bdd: &[u32],
    variable: BddVariable,
    room: usize,
    out: &[u32],
    work: &[u32],
) -> Inspection
    ensures { inspection_reply result ≡ replied (judged (mark_findings n count bdd.now variable.0 room out.now work.now) (root_of count)) }
{
    Inspection::from(mark_root(n, count, bdd, variable, room, out, work))
}

// LIMIT or SHORT of two tables, a room, an output and work, whichever comes first.
fn check_pair_sizes(
    n: u16,
    left_count: usize,
    left: &[u32],
    right_count: usize,
    right: &[u32],
    room: usize,
    out: &[u32],
    work: &[u32],
) -> Result<(), Refusal>
    ensures { result ≡ pair_sizes n left_count left.now right_count right.now room out.now work.now }
{
    refuse_if(table::over_limit(n, left_count), RefusalKind::Limit, 0)?;
    refuse_if(table::over_limit(n, right_count), RefusalKind::Limit, 0)?;
    refuse_if(making::over_room(room), RefusalKind::Limit, 0)?;
    refuse_if(table::too_short(left_count, left), RefusalKind::Short, 0)?;
    refuse_if(table::too_short(right_count, right), RefusalKind::Short, 0)?;
    refuse_if(making::short_output(room, out), RefusalKind::Short, 0)?;
    let widest = room.max(left_count.max(right_count));
    refuse_if(making::short_work(widest, work), RefusalKind::Short, 0)
}

// The tests of two tables, a room, an output and work: the right table's root.
fn pair_root(
    n: u16,
    left_count: usize,
    left: &[u32],
    right_count: usize,
    right: &[u32],
    room: usize,
    out: &[u32],
    work: &[u32],
) -> Result<BddPointer, Refusal>
    ensures { reply_of pointer result ≡ replied (judged (pair_findings n left_count left.now right_count right.now room out.now work.now) (root_of right_count)) }
{
    check_pair_sizes(n, left_count, left, right_count, right, room, out, work)?;
    table::ordered_root(n, left_count, left)?;
    table::ordered_root(n, right_count, right)
}

// Two tables, a room, an output and work. A pass gives the right table's root.
pub fn admit_two_tables(
    n: u16,
    left_count: usize,
    left: &[u32],
    right_count: usize,
    right: &[u32],
    room: usize,
    out: &[u32],
    work: &[u32],
) -> Inspection
    ensures { inspection_reply result ≡ replied (judged (pair_findings n left_count left.now right_count right.now room out.now work.now) (root_of right_count)) }
{
    Inspection::from(pair_root(n, left_count, left, right_count, right, room, out, work))
}
