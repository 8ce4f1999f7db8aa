// The short list: `to_optimized_dnf`.
#![tactic(auto, using(table::proofs::InspectLaws::within, table::proofs::InspectLaws::long, table::proofs::InspectLaws::inspected_reply, making::proofs::RoomLaws::roomy), unfolding(refusal::specs::Number::order, refusal::specs::Verdict::judged, refusal::specs::Verdict::tried, refusal::specs::Verdict::first_of, refusal::specs::Verdict::replied, table::specs::Inspection::roots))]

ghost use Rattle.std.specs.Prelude.{◌≡◌, ◌≤◌};
ghost use Rattle.refusal.specs.Limits.{max_marks, max_nodes};
ghost use Rattle.refusal.specs.Verdict.{replied, judged};
ghost use Rattle.refusal.specs.Buffers.{output_after, work_after};
ghost use Rattle.table.specs.Inspection.{pointer, inspection_reply, root_of};
ghost use Rattle.refusal.specs.Told.{number, reply_of};
ghost use Rattle.short.specs.Short.{short_deep, short_findings, lists_short, over, Shortening, ListsShort};

use held::Function;
use refusal::{Refusal, RefusalKind, refuse_if};
use table::{BddPointer, Inspection, NODE_WORDS, Table};
use trimming::Excess;

fn short_deep(widest: usize, n: u16, work: &[u32]) -> bool
    requires { (widest ≤ max_nodes) × (n ≤ max_marks) }
    ensures { result ≡ short_deep widest n work.now }
{
    work.len() < 24 * widest * (n as usize + 2) + 192
}

fn over(kind: RefusalKind) -> Refusal
    ensures { result ≡ over kind }
{
    Refusal { kind, place: 0 }
}

// The tests of a table, a room and the short list's work.
fn short_root(
    n: u16,
    count: usize,
    bdd: &[u32],
    room: usize,
    work: &[u32],
) -> Result<BddPointer, Refusal>
    ensures { reply_of pointer result ≡ replied (judged (short_findings n count bdd.now room work.now) (root_of count)) }
{
    refuse_if(table::over_limit(n, count), RefusalKind::Limit, 0)?;
    refuse_if(making::over_room(room), RefusalKind::Limit, 0)?;
    refuse_if(table::too_short(count, bdd), RefusalKind::Short, 0)?;
    refuse_if(short_deep(room.max(count), n, work), RefusalKind::Short, 0)?;
    table::ordered_root(n, count, bdd)
}

// A table, a room and the short list's work.
fn admit_short(n: u16, count: usize, bdd: &[u32], room: usize, work: &[u32]) -> Inspection
    ensures { inspection_reply result ≡ replied (judged (short_findings n count bdd.now room work.now) (root_of count)) }
{
    Inspection::from(short_root(n, count, bdd, room, work))
}

// The table reduced and its short list made. The work is cut into the functions found harmless, none at first, the table, the frames and what a
// running operation needs.
fn write_short(
    table: Table,
    room: usize,
    out: &mut [u64],
    work: &mut [u32],
) -> Result<usize, Refusal>
    requires { Shortening table.n table.count room work.old }
    ensures { ListsShort table.entry.n table.entry.count table.entry.words.now room out.old out.new result }
{
    let n = table.n;
    let place = NODE_WORDS * room;
    let (known, rest) = work.split_at_mut(4 * place * (n as usize + 2));
    let (first, rest) = rest.split_at_mut(place);
    let (frames, memo) = rest.split_at_mut(3 * place * (n as usize));
    known.fill(0);
    let reduced = carry::reduce(table, room, first, &mut memo[..table.count]);
    let Ok(k) = reduced else {
        return Err(over(RefusalKind::Nodes));
    };
    let function = Function {
        n,
        room,
        words: &*first,
        count: k,
    };
    match trimming::short_list(function, frames, known, memo, out) {
        Ok(clauses) => Ok(clauses),
        Err(Excess::Nodes) => Err(over(RefusalKind::Nodes)),
        Err(Excess::Clauses) => Err(over(RefusalKind::Clauses)),
    }
}

// The table's short list, two words a clause.
pub fn to_optimized_dnf(
    n: u16,
    count: usize,
    bdd: &[u32],
    room: usize,
    out: &mut [u64],
    work: &mut [u32],
) -> Result<usize, Refusal>
    ensures result_value { reply_of number result ≡ replied (lists_short n count bdd.now room out.old work.old) }
    ensures out_after { out.new ≡ output_after 0 (lists_short n count bdd.now room out.old work.old) out.old }
    ensures work_after { work.new ≡ work_after (lists_short n count bdd.now room out.old work.old) work.old }
{
    let admitted = admit_short(n, count, bdd, room, &*work);
    let Inspection::Sound(root) = admitted else {
        return Err(admitted.refusal());
    };
    let table = Table {
        n,
        count,
        words: bdd,
        root,
    };
    let written = write_short(table, room, out, work);
    listing::settle(written, out, work)
}
