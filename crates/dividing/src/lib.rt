// One step of the short list's rule: a function's core, what is left beside it, and the mark that is set next. Inner.
#![tactic(auto)]

ghost use Rattle.std.specs.Prelude.{◌≡◌, [], ◌∷◌, ◌+◌, ◌*◌, ◌<◌, ◌≤◌, ◌^◌, length, cond};
ghost use Rattle.theory.specs.Tree.{for_all_mark, exists_mark, support_of};
ghost use Rattle.theory.specs.Words.{stride};
ghost use Rattle.theory.specs.Clause.{marks_of};
ghost use Rattle.rule.specs.Rule.{support_marks, inside, core_of, for_alls, larger, rest_of, rest_calls};
ghost use Rattle.held.specs.Held.{Canonical, tree_in};
ghost use Rattle.held.specs.Trees.{tree_of};
ghost use Rattle.dividing.specs.Dividing.{Inner, Standing, CoreGiven, Coring, RestGiven, Picks, Divides};

use held::Function;
use table::BddPointer;
use valuation::BddVariable;

// The core so far, by its nodes and its cases.
#[derive(Clone, Copy)]
pub struct Core {
    pub count: usize,
    pub cases: u64,
}

// The mark so far, and its node total.
#[derive(Clone, Copy)]
pub struct Least {
    pub mark: BddVariable,
    pub total: usize,
}

// The node counts of the core and of what is left beside it, and the mark.
#[derive(Clone, Copy)]
pub struct Parts {
    pub core: usize,
    pub rest: usize,
    pub mark: BddVariable,
}

// Step 1 for one mark.
fn core_step(
    function: Function,
    m: BddVariable,
    best: Core,
    core: &mut [u32],
    tried: &mut [u32],
    memo: &mut [u32],
) -> Option<Core>
    requires standing { Standing function.n function.room core.old best }
    requires core_place { stride * function.room ≤ length core.old }
    requires tried_place { stride * function.room ≤ length tried.old }
    requires memory { 12 * function.room ≤ length memo.old }
    ensures { CoreGiven function.entry.n function.entry.room core.new (larger (tree_in function.entry.n core.old best.count) (for_all_mark m.0 (tree_of function.entry))) (for_all_mark m.0 (tree_of function.entry) ∷ []) result }
{
    let count = function.for_all(m, tried, memo)?;
    let all = Function {
        n: function.n,
        room: function.room,
        words: &*tried,
        count,
    };
    let cases = all.cases(memo);
    if cases > best.cases {
        all.copy_to(core);
        return Some(Core { count, cases });
    }
    Some(best)
}

// Step 1: the core; false, of one node and no cases, if there is none.
fn core_of(
    function: Function,
    s: u64,
    core: &mut [u32],
    tried: &mut [u32],
    memo: &mut [u32],
) -> Option<Core>
    requires support { s ≡ support_of function.n (tree_of function) }
    requires core_place { stride * function.room ≤ length core.old }
    requires tried_place { stride * function.room ≤ length tried.old }
    requires memory { 12 * function.room ≤ length memo.old }
    ensures { CoreGiven function.entry.n function.entry.room core.new (core_of function.entry.n (tree_of function.entry)) (for_alls (tree_of function.entry) (support_marks function.entry.n (tree_of function.entry))) result }
{
    table::put_node(
        core,
        0,
        BddVariable(function.n),
        BddPointer(0),
        BddPointer(0),
    );
    let mut best = Core { count: 1, cases: 0 };
    for m in valuation::marks_of(s) {
        best = core_step(function, m, best, core, tried, memo)?;
    }
    Some(best)
}

// Step 2 for one mark: it drops out if what is then left says yes nowhere but the function does.
fn rest_step(
    function: Function,
    m: BddVariable,
    count: usize,
    rest: &mut [u32],
    tried: &mut [u32],
    memo: &mut [u32],
) -> Option<usize>
    requires standing { Canonical function.n function.room rest.old count }
    requires rest_place { stride * function.room ≤ length rest.old }
    requires tried_place { stride * function.room ≤ length tried.old }
    requires memory { 12 * function.room ≤ length memo.old }
    ensures { RestGiven function.entry.n function.entry.room rest.new (cond (inside (exists_mark m.0 (tree_in function.entry.n rest.old count)) (tree_of function.entry)) (exists_mark m.0 (tree_in function.entry.n rest.old count)) (tree_in function.entry.n rest.old count)) (exists_mark m.0 (tree_in function.entry.n rest.old count) ∷ []) result }
{
    let left = Function {
        n: function.n,
        room: function.room,
        words: &*rest,
        count,
    };
    let fewer = left.exists(m, tried, memo)?;
    let some = Function {
        n: function.n,
        room: function.room,
        words: &*tried,
        count: fewer,
    };
    if some.implies(function, memo) {
        some.copy_to(rest);
        return Some(fewer);
    }
    Some(count)
}

// Step 2: what is left beside the core; the function itself if there is no core.
fn rest_of(
    function: Function,
    core: Function,
    cases: u64,
    rest: &mut [u32],
    tried: &mut [u32],
    memo: &mut [u32],
) -> Option<usize>
    requires coring { Coring function.n function.room (tree_of function) core.n core.room (tree_of core) cases }
    requires rest_place { stride * function.room ≤ length rest.old }
    requires tried_place { stride * function.room ≤ length tried.old }
    requires memory { 12 * function.room ≤ length memo.old }
    ensures { RestGiven function.entry.n function.entry.room rest.new (rest_of function.entry.n (tree_of function.entry)) (rest_calls function.entry.n (tree_of function.entry)) result }
{
    if cases == 0 {
        function.copy_to(rest);
        return Some(function.count);
    }
    let mut count = function.and_not(core, rest, memo)?;
    for m in valuation::marks_of(core.support()) {
        count = rest_step(function, m, count, rest, tried, memo)?;
    }
    Some(count)
}

// Step 3 for one mark.
fn mark_step(
    rest: Function,
    m: BddVariable,
    best: Least,
    tried: &mut [u32],
    memo: &mut [u32],
) -> Option<Least>
    requires tried_place { stride * rest.room ≤ length tried.old }
    requires memory { 12 * rest.room ≤ length memo.old }
    ensures { Picks rest.entry.n rest.entry.room (tree_of rest.entry) (m.0 ∷ []) best.mark.0 best.total result }
{
    let high = rest.fixed(m, true, tried, memo)?;
    let low = rest.fixed(m, false, tried, memo)?;
    if high + low < best.total {
        return Some(Least {
            mark: m,
            total: high + low,
        });
    }
    Some(best)
}

// Step 3: the mark of the smallest node total; a total over 2·room is none yet.
fn mark_of(rest: Function, s: u64, tried: &mut [u32], memo: &mut [u32]) -> Option<Least>
    requires marks { s < 2 ^ rest.n }
    requires tried_place { stride * rest.room ≤ length tried.old }
    requires memory { 12 * rest.room ≤ length memo.old }
    ensures { Picks rest.entry.n rest.entry.room (tree_of rest.entry) (marks_of rest.entry.n s) 0 (2 * rest.entry.room + 1) result }
{
    let mut best = Least {
        mark: BddVariable(0),
        total: 2 * rest.room + 1,
    };
    for m in valuation::marks_of(s) {
        best = mark_step(rest, m, best, tried, memo)?;
    }
    Some(best)
}

// The three steps of the rule at a function that is no constant: its core and what is left stand in the words lent for them.
pub fn divide(
    function: Function,
    core: &mut [u32],
    rest: &mut [u32],
    tried: &mut [u32],
    memo: &mut [u32],
) -> Option<Parts>
    requires inner { Inner function.n (tree_of function) }
    requires core_place { stride * function.room ≤ length core.old }
    requires rest_place { stride * function.room ≤ length rest.old }
    requires tried_place { stride * function.room ≤ length tried.old }
    requires memory { 12 * function.room ≤ length memo.old }
    ensures { Divides function.entry.n function.entry.room (tree_of function.entry) core.new rest.new result }
{
    let s = function.support();
    let best = core_of(function, s, core, tried, memo)?;
    let core = Function {
        n: function.n,
        room: function.room,
        words: &*core,
        count: best.count,
    };
    let count = rest_of(function, core, best.cases, rest, tried, memo)?;
    let left = Function {
        n: function.n,
        room: function.room,
        words: &*rest,
        count,
    };
    let least = mark_of(left, s, tried, memo)?;
    Some(Parts {
        core: best.count,
        rest: count,
        mark: least.mark,
    })
}
