// The memory of functions found harmless: one slot for each remainder of a sum over a table's words; the last one kept in a slot stays. Inner.
#![tactic(auto)]

ghost use Rattle.std.specs.Prelude.{◌≤◌, length};
ghost use Rattle.held.specs.Trees.{tree_of};
ghost use Rattle.harmless.specs.Memory.{known_words, Harmless, Recalls, Remembers, Slot};

use held::Function;
use table::NODE_WORDS;

// Where the function's table belongs in the memory.
fn slot_of(function: Function) -> usize
    ensures { Slot function.entry.n function.entry.room result }
{
    let slots = 3 * (function.n as u32 + 2);
    let end = NODE_WORDS * function.count;
    let mut sum: u32 = 0;
    for word in &function.words[..end] {
        sum = (31 * sum + *word % slots) % slots;
    }
    (1 + NODE_WORDS * function.room) * (sum as usize)
}

// Is the function's table in its slot?
pub fn recall(known: &[u32], function: Function) -> bool
    requires long { known_words function.n function.room ≤ length known.now }
    requires remembers { Remembers function.n function.room known.now }
    ensures { Recalls function.entry.n function.entry.room (tree_of function.entry) result }
{
    let at = slot_of(function);
    let end = NODE_WORDS * function.count;
    if known[at] as usize != function.count {
        return false;
    }
    known[at + 1..at + 1 + end] == function.words[..end]
}

// Puts the function's table into its slot.
pub fn remember(known: &mut [u32], function: Function)
    requires long { known_words function.n function.room ≤ length known.old }
    requires remembers { Remembers function.n function.room known.old }
    requires harmless { Harmless function.n function.room (tree_of function) }
    ensures remembers { Remembers function.entry.n function.entry.room known.new }
{
    let at = slot_of(function);
    let end = NODE_WORDS * function.count;
    known[at] = function.count as u32;
    making::copy_words(&mut known[at + 1..at + 1 + end], &function.words[..end]);
}
