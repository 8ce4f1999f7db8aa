// Calls of the public entries, as a line of the replay has them: one function for each family. Inner.
#![tactic(auto)]

ghost use Rattle.std.specs.Prelude.{◌<◌};

use lines::Word;

// A slice, and the count that a call is given with it.
#[derive(Clone, Copy)]
pub struct Counted<'a, W: Word> {
    pub count: usize,
    pub words: &'a [W],
}

// What a call is given: the entry's number, as the lines have it, numbers in the order of its arguments, two tables and a list. An entry takes what it needs.
#[derive(Clone, Copy)]
pub struct Call<'a> {
    pub entry: u64,
    pub numbers: [u64; 4],
    pub left: Counted<'a, u32>,
    pub right: Counted<'a, u32>,
    pub list: Counted<'a, u64>,
}

// The buffers that a call is lent.
#[derive(Drop)]
pub struct Lent<'a> {
    pub nodes: &'a mut [u32],
    pub clauses: &'a mut [u64],
    pub work: &'a mut [u32],
    pub reply: &'a mut [u64],
}

impl Call<'_> {
    fn word<W: Word>(&self, i: usize) -> W
        requires { i < 4 }
    {
        W::of(self.numbers[i])
    }

    fn size(&self, i: usize) -> usize
        requires { i < 4 }
    {
        self.numbers[i] as usize
    }
}

// The call itself; 0 where there is no such entry. The entries' numbers are those of the lines.
pub fn make(c: Call, lent: Lent) -> u64 {
    let Lent {
        nodes,
        clauses,
        work,
        reply,
    } = lent;
    match c.entry {
        0 | 1 | 31 | 32 => of_table(c, reply),
        2..=13 => of_valuation(c, reply),
        14 | 21 | 22 => of_unary(c, nodes, work, reply),
        15..=17 => of_pair(c, nodes, work, reply),
        18..=20 => of_mark(c, nodes, work, reply),
        23..=26 => of_builder(c, nodes, work, reply),
        27 => of_cover(c, work, reply),
        28..=30 => of_lister(c, clauses, work, reply),
        33 => of_sheet(c, clauses, nodes, reply),
        34 => of_posting(c, clauses, reply),
        35 => of_walk(c, reply),
        _ => 0,
    }
}

fn of_table(c: Call, reply: &mut [u64]) -> u64 {
    let n = c.word(0);
    let Counted { count, words } = c.left;
    match c.entry {
        0 => exports::collartug_inspect(n, count, words, reply),
        1 => exports::collartug_eval_in(n, count, words, c.word(1), reply),
        31 => exports::collartug_walk_check(n, count, words, reply),
        _ => exports::collartug_kth_step(n, count, words, c.word(1), reply),
    }
}

fn of_valuation(c: Call, reply: &mut [u64]) -> u64 {
    let [first, second, third, fourth] = c.numbers;
    let id = c.word(2);
    match c.entry {
        2 => exports::collartug_empty(reply),
        3 => exports::collartug_is_empty(first, second, reply),
        4 => exports::collartug_cardinality(first, second, reply),
        5 => exports::collartug_last_fixed_variable(first, second, reply),
        6 => exports::collartug_to_values(first, second, reply),
        7 => exports::collartug_from_values(c.left.words, reply),
        8 => exports::collartug_get_value(first, second, id, reply),
        9 => exports::collartug_has_value(first, second, id, reply),
        10 => exports::collartug_set_value(first, second, id, fourth, reply),
        11 => exports::collartug_unset_value(first, second, id, reply),
        12 => exports::collartug_extends(first, second, third, fourth, reply),
        _ => exports::collartug_eq(first, second, third, fourth, reply),
    }
}

// An operator on two tables.
fn of_pair(c: Call, out: &mut [u32], work: &mut [u32], reply: &mut [u64]) -> u64 {
    let n = c.word(0);
    let room = c.size(1);
    let Counted { count, words: left } = c.left;
    let Counted {
        count: others,
        words: right,
    } = c.right;
    match c.entry {
        15 => exports::collartug_and(n, count, left, others, right, room, out, work, reply),
        16 => exports::collartug_or(n, count, left, others, right, room, out, work, reply),
        _ => exports::collartug_and_not(n, count, left, others, right, room, out, work, reply),
    }
}

// An operator with a mark: for-all, exists, restrict.
fn of_mark(c: Call, out: &mut [u32], work: &mut [u32], reply: &mut [u64]) -> u64 {
    let n = c.word(0);
    let mark = c.word(1);
    let room = c.size(2);
    let value = c.word(2);
    let room_behind = c.size(3);
    let Counted { count, words } = c.left;
    match c.entry {
        18 => exports::collartug_var_for_all(n, count, words, mark, room, out, work, reply),
        19 => exports::collartug_var_exists(n, count, words, mark, room, out, work, reply),
        _ => exports::collartug_var_restrict(
            n,
            count,
            words,
            mark,
            value,
            room_behind,
            out,
            work,
            reply,
        ),
    }
}

// An operator without one: not, and those that answer a number.
fn of_unary(c: Call, out: &mut [u32], work: &mut [u32], reply: &mut [u64]) -> u64 {
    let n = c.word(0);
    let Counted { count, words } = c.left;
    match c.entry {
        14 => exports::collartug_not(n, count, words, c.size(1), out, work, reply),
        21 => exports::collartug_support_set(n, count, words, work, reply),
        _ => exports::collartug_exact_cardinality(n, count, words, work, reply),
    }
}

fn of_builder(c: Call, out: &mut [u32], work: &mut [u32], reply: &mut [u64]) -> u64 {
    let n = c.word(0);
    let room = c.size(1);
    let Counted { count, words } = c.list;
    match c.entry {
        23 => exports::collartug_mk_dnf(n, count, words, room, out, work, reply),
        24 => exports::collartug_mk_cnf(n, count, words, room, out, work, reply),
        25 => exports::collartug_mk_dnf_valuation(n, count, words, room, out, work, reply),
        _ => exports::collartug_mk_cnf_valuation(n, count, words, room, out, work, reply),
    }
}

fn of_cover(c: Call, work: &mut [u32], reply: &mut [u64]) -> u64 {
    let Counted {
        count: nodes,
        words: bdd,
    } = c.left;
    let Counted { count, words } = c.list;
    exports::collartug_check_cover(c.word(0), nodes, bdd, count, words, c.size(1), work, reply)
}

fn of_lister(c: Call, clauses: &mut [u64], work: &mut [u32], reply: &mut [u64]) -> u64 {
    let n = c.word(0);
    let Counted { count, words } = c.left;
    match c.entry {
        28 => exports::collartug_to_dnf(n, count, words, clauses, work, reply),
        29 => exports::collartug_to_cnf(n, count, words, clauses, work, reply),
        _ => exports::collartug_to_optimized_dnf(n, count, words, c.size(1), clauses, work, reply),
    }
}

// A sheet's bytes stand in the list, one to a word.
fn of_sheet(c: Call, clauses: &mut [u64], nodes: &mut [u32], reply: &mut [u64]) -> u64 {
    let mut bytes = [0u8; 512];
    lines::fill(c.list.words, &mut bytes);
    let length = c.list.words.len().min(bytes.len());
    exports::collartug_read_sheet(&bytes[..length], clauses, nodes, reply)
}

// The list's first words are the DNF, the others the CNF; all words of the part that is chosen are kept.
fn of_posting(c: Call, clauses: &mut [u64], reply: &mut [u64]) -> u64 {
    let list = c.list.words;
    let (dnf, cnf) = list.split_at(lines::at_most(c.word(0), list.len()));
    lines::fill(posting::choose_posting(dnf, cnf), clauses);
    exports::collartug_choose_posting(dnf, cnf, reply)
}

// One walk from its start to its end and past it: its refusal, and the number that its steps come to.
fn of_walk(c: Call, reply: &mut [u64]) -> u64 {
    let n = c.word(0);
    let Counted { count, words } = c.left;
    let (number, place) = match walks::start_refusal(n, count, words) {
        Some(refusal) => (u64::from(refusal.kind.number()), refusal.place),
        None => (0, 0),
    };
    let noted = walks::walk_noted(n, count, words, 0, c.word(1));
    lines::fill(&[number, place, noted], reply);
    1
}
