// The short list's recursion: each depth takes three places from the front of the frames, and lends the rest on. Inner.
// Once the list is longer than its output only a table over room can still be found; a function known to be harmless is then not solved again.
#![tactic(auto)]

ghost use Rattle.std.specs.Prelude.{◌+◌, ◌*◌, ◌/◌, ◌≤◌, length};
ghost use Rattle.theory.specs.Words.{stride};
ghost use Rattle.valuation.specs.Valuation.{clause_of};
ghost use Rattle.rule.proofs.Needs.{need};
ghost use Rattle.listing.specs.Listed.{capacity};
ghost use Rattle.held.specs.Trees.{tree_of};
ghost use Rattle.harmless.specs.Memory.{known_words, Remembers};
ghost use Rattle.solving.specs.Solving.{Pushes, Solves};

use held::Function;
use listing::CLAUSE_WORDS;
use table::NODE_WORDS;
use valuation::BddPartialValuation;

// Counts one clause more, and writes it if there is place for it.
pub fn push_clause(out: &mut [u64], k: usize, y: BddPartialValuation) -> usize
    requires { k ≤ capacity out.old + 1 }
    ensures few { result ≤ capacity out.new + 1 }
    ensures pushes { Pushes out.old out.new k (clause_of y) result }
{
    let most = out.len() / CLAUSE_WORDS;
    if k > most {
        return k;
    }
    if k == most {
        return k + 1;
    }
    out[CLAUSE_WORDS * k] = y.fixed;
    out[CLAUSE_WORDS * k + 1] = y.values;
    k + 1
}

// The clauses of the function with the literals y before them; k clauses are in the output. None where a table is over room.
pub fn solve(
    function: Function,
    y: BddPartialValuation,
    k: usize,
    frames: &mut [u32],
    known: &mut [u32],
    memo: &mut [u32],
    out: &mut [u64],
) -> Option<usize>
    requires few { k ≤ capacity out.old + 1 }
    requires deep { 3 * (stride * function.room) * need function.n (tree_of function) ≤ length frames.old }
    requires long { known_words function.n function.room ≤ length known.old }
    requires remembers { Remembers function.n function.room known.old }
    requires memory { 12 * function.room ≤ length memo.old }
    ensures { Solves function.entry.n function.entry.room (tree_of function.entry) (clause_of y) k known.new out.old out.new result }
{
    if function.count == 1 {
        return Some(k);
    }
    if function.count == 2 {
        return Some(push_clause(out, k, y));
    }
    if k > out.len() / CLAUSE_WORDS && harmless::recall(known, function) {
        return Some(k);
    }
    let n = function.n;
    let room = function.room;
    let place = NODE_WORDS * room;
    let (frame, deeper) = frames.split_at_mut(3 * place);
    let (core, places) = frame.split_at_mut(place);
    let (rest, tried) = places.split_at_mut(place);
    let parts = dividing::divide(function, core, rest, tried, memo)?;
    let core = Function {
        n,
        room,
        words: &*core,
        count: parts.core,
    };
    let mut done = solve(core, y, k, deeper, known, memo, out)?;
    let rest = Function {
        n,
        room,
        words: &*rest,
        count: parts.rest,
    };
    for value in [true, false] {
        let count = rest.fixed(parts.mark, value, tried, memo)?;
        let side = Function {
            n,
            room,
            words: &*tried,
            count,
        };
        let literals = valuation::with_bit(y, parts.mark, value);
        done = solve(side, literals, done, deeper, known, memo, out)?;
    }
    harmless::remember(known, function);
    Some(done)
}
