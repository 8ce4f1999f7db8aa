// The builders: the smallest table of a list, its clauses joined one after another in list order.
#![tactic(auto)]

ghost use Rattle.std.specs.Prelude.{◌≡◌, [], ◌≤◌};
ghost use Rattle.refusal.specs.Limits.{max_marks, max_clauses};
ghost use Rattle.refusal.specs.Buffers.{output_after, work_after};
ghost use Rattle.refusal.specs.Told.{nothing, number, reply_of};
ghost use Rattle.refusal.specs.Verdict.{replied, judged, answered};
ghost use Rattle.making.proofs.MakesLaws.{Outcome};
ghost use Rattle.cube.specs.Cube.{entry_at};
ghost use Rattle.entries.specs.Entries.{says, Within, Given};
ghost use Rattle.build.specs.Build.{Building};
ghost use Rattle.builders.specs.Builders.{over_list, short_list, bad_entry, first_bad_entry, list_findings, builds, makes_dnf, makes_cnf, makes_dnf_valuation, makes_cnf_valuation};

use entries::{Cases, Clauses, Entries, Form};
use refusal::{MAX_CLAUSES, MAX_MARKS, Refusal, RefusalKind, refuse_if};

#[tactic(auto, unfolding(crate::specs::Builders::over_list))]
pub fn over_list(n: u16, count: usize) -> bool
    ensures { result ≡ over_list n count }
{
    n > MAX_MARKS || count > MAX_CLAUSES
}

pub fn short_list<E: Entries>(count: usize, list: &[u64]) -> bool
    requires { count ≤ max_clauses }
    ensures { result ≡ short_list E.cases count list.now }
{
    list.len() < E::WORDS * count
}

// A malformed clause. A case, which fixes every mark, is one exactly if it has a bit from n up.
fn is_bad<E: Entries>(n: u16, list: &[u64], i: usize) -> bool
    requires { (n ≤ max_marks) × Within E.cases i list.now }
    ensures { result ≡ bad_entry E.cases n list.now i }
{
    valuation::is_malformed(n, E::entry_at(n, list, i))
}

// The first such entry, or the count, as the findings have it.
pub fn first_bad<E: Entries>(n: u16, count: usize, list: &[u64]) -> usize
    requires { (n ≤ max_marks) × (count ≤ max_clauses) × Given E.cases count list.now }
    ensures { result ≡ first_bad_entry E.cases n count list.now }
{
    for i in 0..count {
        if is_bad::<E>(n, list, i) {
            return i;
        }
    }
    count
}

// The tests of a list, a room, an output and work, in the order of their numbers.
#[tactic(auto, using(crate::proofs::ListLaws::judged_row, crate::proofs::ListLaws::listed, crate::proofs::ListLaws::list_long, making::proofs::RoomLaws::roomy), unfolding(refusal::specs::Verdict::replied))]
fn check_list<E: Entries>(
    n: u16,
    count: usize,
    list: &[u64],
    room: usize,
    out: &[u32],
    work: &[u32],
) -> Result<(), Refusal>
    ensures { reply_of nothing result ≡ replied (judged (list_findings E.cases n count list.now room out.now work.now) (answered [] [])) }
{
    refuse_if(over_list(n, count), RefusalKind::Limit, 0)?;
    refuse_if(making::over_room(room), RefusalKind::Limit, 0)?;
    refuse_if(short_list::<E>(count, list), RefusalKind::Short, 0)?;
    refuse_if(making::short_output(room, out), RefusalKind::Short, 0)?;
    refuse_if(making::short_work(room, work), RefusalKind::Short, 0)?;
    let bad = first_bad::<E>(n, count, list);
    refuse_if(bad < count, E::BAD, bad as u64)
}

// The build, and its buffers settled.
fn build_list<E: Entries>(
    form: Form,
    n: u16,
    count: usize,
    list: &[u64],
    room: usize,
    out: &mut [u32],
    work: &mut [u32],
) -> Result<usize, Refusal>
    requires { Building n (entry_at E.cases n list.now) count room out.old work.old × Given E.cases count list.now }
    ensures { Outcome (builds [] (says form) n count (entry_at E.cases n list.now) room) result out.old out.new work.old work.new }
{
    let tabled = build::build::<E>(n, list, count as u32, form, room as u32, out, work);
    making::settle(tabled, out, work)
}

// A builder, whatever the form of its list and the kind of its entries.
fn make_list<E: Entries>(
    form: Form,
    n: u16,
    count: usize,
    list: &[u64],
    room: usize,
    out: &mut [u32],
    work: &mut [u32],
) -> Result<usize, Refusal>
    ensures { Outcome (builds (list_findings E.cases n count list.now room out.old work.old) (says form) n count (entry_at E.cases n list.now) room) result out.old out.new work.old work.new }
{
    check_list::<E>(n, count, list, room, &*out, &*work)?;
    build_list::<E>(form, n, count, list, room, out, work)
}

// The four names are the specification's, and C calls them: each is one line over the list's form and the kind of its entries.

// The table of a DNF list: yes exactly where some clause holds.
#[tactic(auto, unfolding(crate::specs::Builders::makes_dnf))]
pub fn mk_dnf(
    n: u16,
    count: usize,
    clauses: &[u64],
    room: usize,
    out: &mut [u32],
    work: &mut [u32],
) -> Result<usize, Refusal>
    ensures result_value { reply_of number result ≡ replied (makes_dnf n count clauses.now room out.old work.old) }
    ensures out_after { out.new ≡ output_after 0 (makes_dnf n count clauses.now room out.old work.old) out.old }
    ensures work_after { work.new ≡ work_after (makes_dnf n count clauses.now room out.old work.old) work.old }
{
    make_list::<Clauses>(Form::Dnf, n, count, clauses, room, out, work)
}

// The table of a CNF list: yes exactly where every clause has a literal that holds.
#[tactic(auto, unfolding(crate::specs::Builders::makes_cnf))]
pub fn mk_cnf(
    n: u16,
    count: usize,
    clauses: &[u64],
    room: usize,
    out: &mut [u32],
    work: &mut [u32],
) -> Result<usize, Refusal>
    ensures result_value { reply_of number result ≡ replied (makes_cnf n count clauses.now room out.old work.old) }
    ensures out_after { out.new ≡ output_after 0 (makes_cnf n count clauses.now room out.old work.old) out.old }
    ensures work_after { work.new ≡ work_after (makes_cnf n count clauses.now room out.old work.old) work.old }
{
    make_list::<Clauses>(Form::Cnf, n, count, clauses, room, out, work)
}

// The table of a list of cases as DNF clauses: yes exactly at the listed cases.
#[tactic(auto, unfolding(crate::specs::Builders::makes_dnf_valuation))]
pub fn mk_dnf_valuation(
    n: u16,
    count: usize,
    cases: &[u64],
    room: usize,
    out: &mut [u32],
    work: &mut [u32],
) -> Result<usize, Refusal>
    ensures result_value { reply_of number result ≡ replied (makes_dnf_valuation n count cases.now room out.old work.old) }
    ensures out_after { out.new ≡ output_after 0 (makes_dnf_valuation n count cases.now room out.old work.old) out.old }
    ensures work_after { work.new ≡ work_after (makes_dnf_valuation n count cases.now room out.old work.old) work.old }
{
    make_list::<Cases>(Form::Dnf, n, count, cases, room, out, work)
}

// The table of a list of cases as CNF clauses: no exactly at the complements of the listed cases.
#[tactic(auto, unfolding(crate::specs::Builders::makes_cnf_valuation))]
pub fn mk_cnf_valuation(
    n: u16,
    count: usize,
    cases: &[u64],
    room: usize,
    out: &mut [u32],
    work: &mut [u32],
) -> Result<usize, Refusal>
    ensures result_value { reply_of number result ≡ replied (makes_cnf_valuation n count cases.now room out.old work.old) }
    ensures out_after { out.new ≡ output_after 0 (makes_cnf_valuation n count cases.now room out.old work.old) out.old }
    ensures work_after { work.new ≡ work_after (makes_cnf_valuation n count cases.now room out.old work.old) work.old }
{
    make_list::<Cases>(Form::Cnf, n, count, cases, room, out, work)
}
