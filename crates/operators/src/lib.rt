// The operators on tables that descend two together: and, or, and-not, for-all, exists.
// An entry's parameters are those of the C interface, one by one; what an entry hands on stays in that order.
#![tactic(auto)]

ghost use Rattle.std.specs.Prelude.{◌≡◌, []};
ghost use Rattle.refusal.specs.Buffers.{output_after, work_after};
ghost use Rattle.refusal.specs.Verdict.{replied};
ghost use Rattle.refusal.specs.Told.{number, reply_of};
ghost use Rattle.making.specs.Made.{operates};
ghost use Rattle.making.proofs.MakesLaws.{Outcome};
ghost use Rattle.join.specs.Joining.{Given, joined_by};
ghost use Rattle.operators.specs.Operators.{makes_pair, makes_mark, makes_and, makes_or, makes_and_not, makes_for_all, makes_exists};

use join::{Job, Operation};
use refusal::Refusal;
use table::Inspection;
use valuation::BddVariable;

// The join, and its buffers settled.
fn joined(
    left: &[u32],
    right: &[u32],
    out: &mut [u32],
    work: &mut [u32],
    job: Job,
) -> Result<usize, Refusal>
    requires { Given left.now right.now out.old work.old job }
    ensures { Outcome (operates [] job.n job.room (joined_by left.now right.now job)) result out.old out.new work.old work.new }
{
    let tabled = join::join_tables(left, right, out, work, job);
    making::settle(tabled, out, work)
}

// The table of an operation of two tables.
fn operate(
    op: Operation,
    n: u16,
    left_count: usize,
    left: &[u32],
    right_count: usize,
    right: &[u32],
    room: usize,
    out: &mut [u32],
    work: &mut [u32],
) -> Result<usize, Refusal>
    ensures result_value { reply_of number result ≡ replied (makes_pair op n left_count left.now right_count right.now room out.old work.old) }
    ensures out_after { out.new ≡ output_after 0 (makes_pair op n left_count left.now right_count right.now room out.old work.old) out.old }
    ensures work_after { work.new ≡ work_after (makes_pair op n left_count left.now right_count right.now room out.old work.old) work.old }
{
    let admitted = admission::admit_two_tables(
        n,
        left_count,
        left,
        right_count,
        right,
        room,
        &*out,
        &*work,
    );
    let Inspection::Sound(_) = admitted else {
        return Err(admitted.refusal());
    };
    let job = Job::pair(n, op, left_count, right_count, room);
    joined(left, right, out, work, job)
}

// The table of an operation of one table with the mark at 0 and the same with the mark at 1.
fn operate_mark(
    op: Operation,
    n: u16,
    count: usize,
    nodes: &[u32],
    variable: BddVariable,
    room: usize,
    out: &mut [u32],
    work: &mut [u32],
) -> Result<usize, Refusal>
    ensures result_value { reply_of number result ≡ replied (makes_mark op n count nodes.now variable.0 room out.old work.old) }
    ensures out_after { out.new ≡ output_after 0 (makes_mark op n count nodes.now variable.0 room out.old work.old) out.old }
    ensures work_after { work.new ≡ work_after (makes_mark op n count nodes.now variable.0 room out.old work.old) work.old }
{
    let admitted = admission::admit_table_room_mark(n, count, nodes, variable, room, &*out, &*work);
    let Inspection::Sound(_) = admitted else {
        return Err(admitted.refusal());
    };
    let job = Job::mark(n, op, count, variable, room);
    joined(nodes, nodes, out, work, job)
}

// The five names are the specification's, and C calls them: each is one line over the operation.

// The table of: left and right.
#[tactic(auto, unfolding(crate::specs::Operators::makes_and))]
pub fn and(
    n: u16,
    left_count: usize,
    left: &[u32],
    right_count: usize,
    right: &[u32],
    room: usize,
    out: &mut [u32],
    work: &mut [u32],
) -> Result<usize, Refusal>
    ensures result_value { reply_of number result ≡ replied (makes_and n left_count left.now right_count right.now room out.old work.old) }
    ensures out_after { out.new ≡ output_after 0 (makes_and n left_count left.now right_count right.now room out.old work.old) out.old }
    ensures work_after { work.new ≡ work_after (makes_and n left_count left.now right_count right.now room out.old work.old) work.old }
{
    operate(
        Operation::And,
        n,
        left_count,
        left,
        right_count,
        right,
        room,
        out,
        work,
    )
}

// The table of: left or right.
#[tactic(auto, unfolding(crate::specs::Operators::makes_or))]
pub fn or(
    n: u16,
    left_count: usize,
    left: &[u32],
    right_count: usize,
    right: &[u32],
    room: usize,
    out: &mut [u32],
    work: &mut [u32],
) -> Result<usize, Refusal>
    ensures result_value { reply_of number result ≡ replied (makes_or n left_count left.now right_count right.now room out.old work.old) }
    ensures out_after { out.new ≡ output_after 0 (makes_or n left_count left.now right_count right.now room out.old work.old) out.old }
    ensures work_after { work.new ≡ work_after (makes_or n left_count left.now right_count right.now room out.old work.old) work.old }
{
    operate(
        Operation::Or,
        n,
        left_count,
        left,
        right_count,
        right,
        room,
        out,
        work,
    )
}

// The table of: left and not right.
#[tactic(auto, unfolding(crate::specs::Operators::makes_and_not))]
pub fn and_not(
    n: u16,
    left_count: usize,
    left: &[u32],
    right_count: usize,
    right: &[u32],
    room: usize,
    out: &mut [u32],
    work: &mut [u32],
) -> Result<usize, Refusal>
    ensures result_value { reply_of number result ≡ replied (makes_and_not n left_count left.now right_count right.now room out.old work.old) }
    ensures out_after { out.new ≡ output_after 0 (makes_and_not n left_count left.now right_count right.now room out.old work.old) out.old }
    ensures work_after { work.new ≡ work_after (makes_and_not n left_count left.now right_count right.now room out.old work.old) work.old }
{
    operate(
        Operation::AndNot,
        n,
        left_count,
        left,
        right_count,
        right,
        room,
        out,
        work,
    )
}

// The table of: yes whatever the mark is.
#[tactic(auto, unfolding(crate::specs::Operators::makes_for_all))]
pub fn var_for_all(
    n: u16,
    count: usize,
    nodes: &[u32],
    variable: BddVariable,
    room: usize,
    out: &mut [u32],
    work: &mut [u32],
) -> Result<usize, Refusal>
    ensures result_value { reply_of number result ≡ replied (makes_for_all n count nodes.now variable.0 room out.old work.old) }
    ensures out_after { out.new ≡ output_after 0 (makes_for_all n count nodes.now variable.0 room out.old work.old) out.old }
    ensures work_after { work.new ≡ work_after (makes_for_all n count nodes.now variable.0 room out.old work.old) work.old }
{
    operate_mark(Operation::And, n, count, nodes, variable, room, out, work)
}

// The table of: yes for some value of the mark.
#[tactic(auto, unfolding(crate::specs::Operators::makes_exists))]
pub fn var_exists(
    n: u16,
    count: usize,
    nodes: &[u32],
    variable: BddVariable,
    room: usize,
    out: &mut [u32],
    work: &mut [u32],
) -> Result<usize, Refusal>
    ensures result_value { reply_of number result ≡ replied (makes_exists n count nodes.now variable.0 room out.old work.old) }
    ensures out_after { out.new ≡ output_after 0 (makes_exists n count nodes.now variable.0 room out.old work.old) out.old }
    ensures work_after { work.new ≡ work_after (makes_exists n count nodes.now variable.0 room out.old work.old) work.old }
{
    operate_mark(Operation::Or, n, count, nodes, variable, room, out, work)
}
