// A list of clauses built in one pool: set one after another in list order, the pool brought to its root's own table when it has grown. Inner.
// In work: the pool of 2 * room nodes from 0 on, the memo from 6 * room on, the pool's chains from 8 * room on.
#![tactic(auto)]

ghost use Rattle.std.specs.Prelude.{◌≡◌, ◌+◌, ◌*◌, ◌≤◌, length};
ghost use Rattle.cube.specs.Cube.{entry_at};
ghost use Rattle.entries.specs.Entries.{Given};
ghost use Rattle.build.specs.Build.{Carrying, Carries, Copied, Compacting, Compacts, Adding, Adds, Exporting, Exported, Building, Builds};

use entries::{Entries, Form};
use put::{Job, Run};
use table::BddPointer;

// A run that carries a node of the pool, and the output's node room.
#[derive(Clone, Copy)]
pub struct Goal {
    pub run: Run,
    pub room: u32,
}

// A node of the pool, walked into out. No node is searched for: no two nodes of the pool mean the same, and what was carried before is in the memo.
pub fn carry(
    work: &mut [u32],
    out: &mut [u32],
    goal: Goal,
    count: u32,
    made: u32,
    p: BddPointer,
) -> Option<(BddPointer, u32)>
    requires { Carrying work.old out.old goal count made p.0 }
    ensures { Carries work.old work.new out.old out.new goal count made p.0 result }
{
    if p.0 < 2 {
        return Some((p, made));
    }
    if let Some(r) = put::recall(&*work, goal.run, p) {
        return Some((r, made));
    }
    let variable = table::var_of(&*work, p);
    let x = table::low_link_of(&*work, p);
    let y = table::high_link_of(&*work, p);
    let (low, lows) = carry(work, out, goal, count, made, x)?;
    let (high, highs) = carry(work, out, goal, count, lows, y)?;
    // By `?` the pair's two words would be stored one by one and read back as one: an eighth slower, measured.
    let Some((r, more)) = pool::push_node(out, goal.room, highs, variable, low, high) else {
        return None;
    };
    put::keep(work, goal.run, true, p, r);
    Some((r, more))
}

// The first nodes of a table to the front of work.
pub fn copy_nodes(work: &mut [u32], bdd: &[u32], count: u32)
    requires { (3 * count ≤ length work.old) × (3 * count ≤ length bdd.now) }
    ensures { Copied work.old work.new bdd.now (3 * count) }
{
    let end = 3 * (count as usize);
    making::copy_words(&mut work[..end], &bdd[..end]);
}

// The pool brought to the table of its node p: the nodes of earlier steps go.
pub fn compact(
    work: &mut [u32],
    out: &mut [u32],
    goal: Goal,
    count: u32,
    p: BddPointer,
) -> Option<(BddPointer, u32)>
    requires { Compacting work.old out.old goal count p.0 }
    ensures { Compacts work.old work.new goal count p.0 result }
{
    making::put_constants(out, goal.run.n);
    let (r, made) = carry(work, out, goal, count, 2, p)?;
    copy_nodes(work, &*out, made);
    chain::index_nodes(work, goal.run.cap, made);
    Some((r, made))
}

// One clause more: the run's node in the pool, which holds at most room nodes again, and the pool's count; None exactly if the run's own table has more.
// Only a pool over room is brought to its root's table: along chains, nodes that are dead cost less than bringing it there earlier.
pub fn add_clause(
    work: &mut [u32],
    out: &mut [u32],
    job: Job,
    room: u32,
    count: u32,
    p: BddPointer,
) -> Option<(BddPointer, u32)>
    requires { Adding work.old out.old job room count p.0 }
    ensures { Adds work.old work.new job room count p.0 result }
{
    let (r, more) = put::put(work, job, 0, count, p, false)?;
    if more <= room {
        return Some((r, more));
    }
    let run = Run {
        n: job.run.n,
        stamp: job.run.stamp + 1,
        cap: job.run.cap,
    };
    compact(work, out, Goal { run, room }, more, r)
}

// The table of the pool's node p in out, and its count: false is one node.
pub fn export(work: &mut [u32], out: &mut [u32], goal: Goal, count: u32, p: BddPointer) -> u32
    requires { Exporting work.old out.old goal count p.0 }
    ensures { Exported work.old out.new goal count p.0 result }
{
    making::put_constants(out, goal.run.n);
    let Some((r, made)) = carry(work, out, goal, count, 2, p) else {
        unreachable!()
    };
    if r.0 == 0 {
        return 1;
    }
    made
}

// The count of a list's canonical table, which is in out; or the length of the shortest opening run whose table has no room.
pub fn build<E: Entries>(
    n: u16,
    list: &[u64],
    count: u32,
    form: Form,
    room: u32,
    out: &mut [u32],
    work: &mut [u32],
) -> Result<usize, u64>
    requires { Building n (entry_at E.cases n list.now) count room out.old work.old × Given E.cases count list.now }
    ensures { Builds n (entry_at E.cases n list.now) count form room out.new result }
{
    let cap = 2 * room;
    chain::clear(work, 3 * (cap as usize), 5 * (cap as usize));
    making::put_constants(work, n);
    let mut root = form.empty();
    let mut held: u32 = 2;
    for i in 0..count {
        let run = Run {
            n,
            stamp: 2 * i + 1,
            cap,
        };
        let job = Job {
            run,
            clause: E::entry_at(n, list, i as usize),
            form,
        };
        let Some((p, more)) = add_clause(work, out, job, room, held, root) else {
            return Err((i + 1) as u64);
        };
        root = p;
        held = more;
    }
    let run = Run {
        n,
        stamp: 2 * count + 1,
        cap,
    };
    let nodes = export(work, out, Goal { run, room }, held, root);
    Ok(nodes as usize)
}
