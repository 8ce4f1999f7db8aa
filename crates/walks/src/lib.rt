// Whole walks for the replay: a walk is started once and stepped to its end and past it. Inner.
#![tactic(auto)]

use refusal::Refusal;
use valuation::BddPartialValuation;
use walk::BddPathIterator;

// Three times the one number, and the other, as a word.
fn mixed(so_far: u64, word: u64) -> u64 {
    so_far.wrapping_mul(3).wrapping_add(word)
}

// A number that each step changes: a clause by 1 and its words, the end by 0.
pub fn noted(so_far: u64, step: Option<BddPartialValuation>) -> u64 {
    match step {
        Some(v) => mixed(mixed(mixed(so_far, 1), v.fixed), v.values),
        None => mixed(so_far, 0),
    }
}

// So many steps of one walk, noted one after the other; the first note is `start`.
pub fn walk_noted(n: u16, count: usize, nodes: &[u32], start: u64, steps: u32) -> u64 {
    let mut walk = BddPathIterator::new(n, count, nodes);
    let mut so_far = start;
    for _i in 0..steps {
        so_far = noted(so_far, walk.next());
    }
    so_far
}

// Why a walk's start is refused; none where it is not.
pub fn start_refusal(n: u16, count: usize, nodes: &[u32]) -> Option<Refusal> {
    BddPathIterator::new(n, count, nodes).refusal()
}
