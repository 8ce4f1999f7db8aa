// The short list of a function: solved, then trimmed. Inner.
#![tactic(auto)]

ghost use Rattle.std.specs.Prelude.{◌≡◌, ◌*◌, ◌<◌, ◌≤◌, length};
ghost use Rattle.theory.specs.Words.{stride};
ghost use Rattle.refusal.specs.Limits.{max_marks};
ghost use Rattle.valuation.specs.Valuation.{clause_of};
ghost use Rattle.rule.specs.Rule.{cleared};
ghost use Rattle.held.specs.Trees.{tree_of};
ghost use Rattle.listing.specs.Listed.{clause_stride};
ghost use Rattle.harmless.specs.Memory.{known_words, Remembers};
ghost use Rattle.trimming.specs.Trimming.{Clears, TrimsBy, Trims, Shortens};

use held::Function;
use listing::CLAUSE_WORDS;
use valuation::{BddPartialValuation, BddVariable};

// What a short list may be over: the room for a table, or its output. The entry makes the refusal of it, whose place it knows.
#[derive(Clone, Copy)]
pub enum Excess {
    Nodes,
    Clauses,
}

// The clause without its literal of the mark, if that has the value.
#[tactic(auto, unfolding(rule::specs::Rule::cleared))]
fn clear_literal(y: BddPartialValuation, m: BddVariable, value: bool) -> BddPartialValuation
    requires { m.0 < max_marks }
    ensures { clause_of result ≡ cleared m.0 value (clause_of y) }
{
    if valuation::has_bit(y.fixed, m) && valuation::has_bit(y.values, m) == value {
        return valuation::without_bit(y, m);
    }
    y
}

// The same in each of the first k clauses.
fn clear_literals(out: &mut [u64], k: usize, m: BddVariable, value: bool)
    requires { (clause_stride * k ≤ length out.old) × (m.0 < max_marks) }
    ensures { Clears out.old out.new k m.0 value }
{
    for i in 0..k {
        let at = CLAUSE_WORDS * i;
        let y = BddPartialValuation {
            fixed: out[at],
            values: out[at + 1],
        };
        let z = clear_literal(y, m, value);
        out[at] = z.fixed;
        out[at + 1] = z.values;
    }
}

// One mark: positive in it, literals 0 are cleared; negative, literals 1.
fn trim_mark(function: Function, m: BddVariable, k: usize, out: &mut [u64], memo: &mut [u32])
    requires mark { m.0 < function.n }
    requires place { clause_stride * k ≤ length out.old }
    requires memory { 12 * function.room ≤ length memo.old }
    ensures { TrimsBy (tree_of function.entry) out.old out.new m.0 k }
{
    if function.is_spare(m, false, memo) {
        clear_literals(out, k, m, false);
        return;
    }
    if function.is_spare(m, true, memo) {
        clear_literals(out, k, m, true);
    }
}

// Each mark of the support.
fn trim_marks(function: Function, k: usize, out: &mut [u64], memo: &mut [u32])
    requires place { clause_stride * k ≤ length out.old }
    requires memory { 12 * function.room ≤ length memo.old }
    ensures { Trims function.entry.n (tree_of function.entry) out.old out.new k }
{
    for m in valuation::marks_of(function.support()) {
        trim_mark(function, m, k, out, memo);
    }
}

// The short list of the function, two words a clause.
pub fn short_list(
    function: Function,
    frames: &mut [u32],
    known: &mut [u32],
    memo: &mut [u32],
    out: &mut [u64],
) -> Result<usize, Excess>
    requires deep { 3 * (stride * function.room) * function.n ≤ length frames.old }
    requires long { known_words function.n function.room ≤ length known.old }
    requires remembers { Remembers function.n function.room known.old }
    requires memory { 12 * function.room ≤ length memo.old }
    ensures { Shortens function.entry.n function.entry.room (tree_of function.entry) out.new result }
{
    let none = BddPartialValuation {
        fixed: 0,
        values: 0,
    };
    let Some(k) = solving::solve(function, none, 0, frames, known, memo, out) else {
        return Err(Excess::Nodes);
    };
    if k > out.len() / CLAUSE_WORDS {
        return Err(Excess::Clauses);
    }
    trim_marks(function, k, out, memo);
    Ok(k)
}
