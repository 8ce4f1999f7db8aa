// Partial valuations: the marks of a cell that are fixed, and their values.
#![tactic(auto, using(refusal::proofs::Judged::judged_stops, refusal::proofs::Judged::judged_answers, crate::proofs::Gathering::bad_refuses, crate::proofs::Listing::list_refused, theory::proofs::Masks::bit_shift), unfolding(refusal::specs::Buffers::padded, refusal::specs::Verdict::replied, theory::specs::Clause::cell, theory::specs::Clause::set_cell, theory::specs::Clause::unset_cell, crate::specs::Valuation::asks_empty, crate::specs::Valuation::counts_fixed, crate::specs::Valuation::finds_last, crate::specs::Valuation::gets_value, crate::specs::Valuation::asks_value, crate::specs::Valuation::sets_value, crate::specs::Valuation::unsets_value, crate::specs::Valuation::asks_extends, crate::specs::Valuation::asks_equal, crate::specs::Valuation::same_words))]

ghost use Rattle.std.specs.Prelude.{◌≤◌, ◌≡◌, ◌<◌, ◌^◌, suc, length};
ghost use Rattle.std.specs.Iterator.{YieldsFirstBy, item_count};
ghost use Rattle.theory.specs.Mask.{bit, set_bit};
ghost use Rattle.theory.specs.Clause.{WellFormed, malformed, cell, empty_clause, set_cell, unset_cell, marks_of, last_mark, extending, gather, entry_of, entries_of};
ghost use Rattle.refusal.specs.Limits.{max_marks};
ghost use Rattle.refusal.specs.Verdict.{gives, replied};
ghost use Rattle.refusal.specs.Told.{number, truth, nothing, reply_of};
ghost use Rattle.valuation.specs.Valuation.{clause_of, cell_of, checked, of_one, of_mark, of_two, first_bad_mark, says_mark, says_entries};
ghost use Rattle.valuation.specs.Valuation.{asks_empty, counts_fixed, finds_last, gathers_values, lists_values, gets_value, asks_value, sets_value, unsets_value, asks_extends, asks_equal};
ghost use Rattle.valuation.specs.Marks.{mask_bits, mark_number, marks_left};
ghost use Rattle.valuation.specs.Replies.{cell_words, both_words, mark_word, mark_words, all_words, lookup_reply, value_list_reply, replied_in};

use refusal::{MAX_MARKS, Refusal, RefusalKind, Told, refuse_if};

// A mark number.
#[derive(Clone, Copy, PartialEq, Eq, Debug)]
pub struct BddVariable(pub u16);

// A clause: a mask of the fixed marks, and one of their values. Any two words may reach an entry.
#[derive(Clone, Copy, PartialEq, Eq, Debug)]
pub struct BddPartialValuation {
    pub fixed: u64,
    pub values: u64,
}

// Cell and lookup have the forms that the specification names.
#[derive(Clone, Copy, PartialEq, Eq, Debug)]
pub enum Cell {
    Unset,
    Value(bool),
}

#[derive(Clone, Copy, PartialEq, Eq, Debug)]
pub enum Lookup {
    Found(Cell),
    Refused(Refusal),
}

// The words of a list of values, and how many there are.
#[derive(Clone, Copy, PartialEq, Eq, Debug)]
pub struct Values {
    pub count: usize,
    pub words: [u32; 60],
}

impl Told for Cell {
    ghost values = { cell_words };

    fn tell(self, out: &mut [u64]) {
        match self {
            Self::Unset => refusal::tell_with(0, (), out),
            Self::Value(value) => refusal::tell_with(1, value, out),
        }
    }
}

impl Told for BddPartialValuation {
    ghost values = { both_words };

    fn tell(self, out: &mut [u64]) {
        refusal::tell_with(self.fixed, self.values, out);
    }
}

impl Told for BddVariable {
    ghost values = { mark_word };

    fn tell(self, out: &mut [u64]) {
        refusal::tell_with(u64::from(self.0), (), out);
    }
}

impl Told for Values {
    ghost values = { all_words };

    #[tactic(auto, using(refusal::proofs::Zeroing::padded_first), unfolding(refusal::specs::Buffers::padded))]
    fn tell(self, out: &mut [u64]) {
        let (front, rest) = out.split_at_mut(1);
        front[0] = self.count as u64;
        let (words, spare) = rest.split_at_mut(60);
        let own = self.words;
        widen(&own, words);
        spare.fill(0);
    }
}

// The words of one slice in another.
fn widen(words: &[u32], out: &mut [u64])
    requires { length out.old ≡ length words.now }
    ensures { out.new ≡ words.now }
{
    for i in 0..words.len() {
        out[i] = u64::from(words[i]);
    }
}

impl Lookup {
    // The cell, or the refusal.
    #[tactic(auto, unfolding(crate::specs::Replies::lookup_reply))]
    pub fn answer(self) -> Result<Cell, Refusal>
        ensures { reply_of cell_words result ≡ lookup_reply self }
    {
        match self {
            Self::Found(cell) => Ok(cell),
            Self::Refused(refusal) => Err(refusal),
        }
    }
}

// Inner: the mark's bit of a mask.
pub fn has_bit(mask: u64, id: BddVariable) -> bool
    requires { id.0 < 64 }
    ensures { result ≡ bit id.0 mask }
{
    (mask >> id.0) % 2 == 1
}

// Inner: the mask with the mark's bit set or cleared.
pub fn set_bit(mask: u64, id: BddVariable, value: bool) -> u64
    requires { id.0 < 64 }
    ensures { result ≡ set_bit id.0 value mask }
{
    if value {
        mask | (1 << id.0)
    } else {
        mask & !(1 << id.0)
    }
}

// The marks that are left of a mask, rising.
#[derive(Clone, Copy)]
pub struct Marks {
    rest: u64,
}

// Inner: the marks of a mask, rising.
pub fn marks_of(mask: u64) -> Marks
    ensures { marks_left result ≡ marks_of mask_bits mask }
{
    Marks { rest: mask }
}

impl Iterator for Marks {
    type Item = BddVariable;

    ghost next_gives = { YieldsFirstBy mark_number marks_left };

    ghost remaining = { item_count marks_left };

    fn next(&mut self) -> Option<BddVariable> {
        if self.rest == 0 {
            return None;
        }
        let mark = BddVariable(self.rest.trailing_zeros() as u16);
        self.rest = set_bit(self.rest, mark, false);
        Some(mark)
    }
}

// Inner: the valuation with the mark fixed at the value; it never refuses.
pub fn with_bit(v: BddPartialValuation, id: BddVariable, value: bool) -> BddPartialValuation
    requires { id.0 < max_marks }
    ensures { clause_of result ≡ set_cell (clause_of v) id.0 value }
{
    BddPartialValuation {
        fixed: set_bit(v.fixed, id, true),
        values: set_bit(v.values, id, value),
    }
}

// Inner: the valuation with the mark unset; it never refuses.
pub fn without_bit(v: BddPartialValuation, id: BddVariable) -> BddPartialValuation
    requires { id.0 < max_marks }
    ensures { clause_of result ≡ unset_cell (clause_of v) id.0 }
{
    BddPartialValuation {
        fixed: set_bit(v.fixed, id, false),
        values: set_bit(v.values, id, false),
    }
}

// Inner: a fixed mark from n up, or a value of a mark that is not fixed.
pub fn is_malformed(n: u16, v: BddPartialValuation) -> bool
    requires { n ≤ max_marks }
    ensures { result ≡ malformed n v.fixed v.values }
{
    v.fixed >> n != 0 || v.fixed | v.values != v.fixed
}

// Inner: the cell at a mark; it never refuses.
pub fn cell_at(v: BddPartialValuation, id: BddVariable) -> Cell
    requires { id.0 < max_marks }
    ensures { cell_of result ≡ cell (clause_of v) id.0 }
{
    if has_bit(v.fixed, id) {
        Cell::Value(has_bit(v.values, id))
    } else {
        Cell::Unset
    }
}

// The greatest mark of a mask.
fn last_mark(mask: u64) -> Option<BddVariable>
    requires { mask < 2 ^ max_marks }
    ensures { gives (mark_words result) ≡ replied (says_mark (last_mark max_marks mask)) }
{
    if mask == 0 {
        return None;
    }
    Some(BddVariable((63 - mask.leading_zeros()) as u16))
}

// Every cell that is fixed in the second is fixed in the first with the same value.
fn agree(first: BddPartialValuation, second: BddPartialValuation) -> bool
    requires { WellFormed max_marks (clause_of first) × WellFormed max_marks (clause_of second) }
    ensures { result ≡ extending max_marks (clause_of first) (clause_of second) }
{
    first.fixed & second.fixed == second.fixed && first.values & second.fixed == second.values
}

// What is wrong with one valuation, with one and a mark, with two.
#[tactic(auto, unfolding(refusal::specs::Number::order, refusal::specs::Verdict::judged, refusal::specs::Verdict::tried, refusal::specs::Verdict::first_of, refusal::specs::Verdict::replied))]
fn check_one(v: BddPartialValuation) -> Result<(), Refusal>
    ensures { reply_of nothing result ≡ replied (checked (of_one (clause_of v))) }
{
    refuse_if(is_malformed(MAX_MARKS, v), RefusalKind::Clause, 0)
}

#[tactic(auto, unfolding(refusal::specs::Number::order, refusal::specs::Verdict::judged, refusal::specs::Verdict::tried, refusal::specs::Verdict::first_of, refusal::specs::Verdict::replied))]
fn check_mark(v: BddPartialValuation, id: BddVariable) -> Result<(), Refusal>
    ensures { reply_of nothing result ≡ replied (checked (of_mark (clause_of v) id.0)) }
{
    refuse_if(MAX_MARKS <= id.0, RefusalKind::Variable, id.0 as u64)?;
    check_one(v)
}

#[tactic(auto, unfolding(refusal::specs::Number::order, refusal::specs::Verdict::judged, refusal::specs::Verdict::tried, refusal::specs::Verdict::first_of, refusal::specs::Verdict::replied))]
fn check_two(first: BddPartialValuation, second: BddPartialValuation) -> Result<(), Refusal>
    ensures { reply_of nothing result ≡ replied (checked (of_two (clause_of first) (clause_of second))) }
{
    refuse_if(is_malformed(MAX_MARKS, first), RefusalKind::Clause, 0)?;
    refuse_if(is_malformed(MAX_MARKS, second), RefusalKind::Clause, 1)
}

// The index of the first entry whose mark is too large, or the length.
fn first_bad_mark(values: &[u32]) -> usize
    ensures { result ≡ first_bad_mark values.now }
{
    for i in 0..values.len() {
        if MAX_MARKS as u32 <= values[i] / 2 {
            return i;
        }
    }
    values.len()
}

// The entries set their marks in turn.
fn gather_values(values: &[u32]) -> BddPartialValuation
    requires { first_bad_mark values.now ≡ length values.now }
    ensures { clause_of result ≡ gather empty_clause values.now }
{
    let mut v = BddPartialValuation::empty();
    for &word in values {
        v = with_bit(v, BddVariable((word / 2) as u16), word % 2 == 1);
    }
    v
}

// A mark and its value as one word.
fn entry_of(mark: u32, value: bool) -> u32
    requires { mark < max_marks }
    ensures { result ≡ entry_of mark value }
{
    if value { 2 * mark + 1 } else { 2 * mark }
}

// The words of the fixed marks, rising.
fn list_values(v: BddPartialValuation) -> Values
    requires { WellFormed max_marks (clause_of v) }
    ensures { gives (all_words result) ≡ replied_in (suc max_marks) (says_entries (entries_of max_marks (clause_of v))) }
{
    let mut words = [0u32; 60];
    let mut count: usize = 0;
    for mark in marks_of(v.fixed) {
        words[count] = entry_of(mark.0 as u32, has_bit(v.values, mark));
        count += 1;
    }
    Values { count, words }
}

impl BddPartialValuation {
    pub fn empty() -> BddPartialValuation
        ensures { (result.fixed ≡ 0) × (result.values ≡ 0) }
    {
        BddPartialValuation {
            fixed: 0,
            values: 0,
        }
    }

    pub fn is_empty(self) -> Result<bool, Refusal>
        ensures { reply_of truth result ≡ replied (asks_empty (clause_of self)) }
    {
        check_one(self)?;
        Ok(self.fixed == 0)
    }

    pub fn cardinality(self) -> Result<u64, Refusal>
        ensures { reply_of number result ≡ replied (counts_fixed (clause_of self)) }
    {
        check_one(self)?;
        Ok(self.fixed.count_ones() as u64)
    }

    pub fn last_fixed_variable(self) -> Result<Option<BddVariable>, Refusal>
        ensures { reply_of mark_words result ≡ replied (finds_last (clause_of self)) }
    {
        check_one(self)?;
        Ok(last_mark(self.fixed))
    }

    pub fn from_values(values: &[u32]) -> Result<BddPartialValuation, Refusal>
        ensures { reply_of both_words result ≡ replied (gathers_values values.now) }
    {
        let bad = first_bad_mark(values);
        refuse_if(bad < values.len(), RefusalKind::Variable, bad as u64)?;
        Ok(gather_values(values))
    }

    pub fn to_values(self) -> Result<Values, Refusal>
        ensures { value_list_reply result ≡ replied_in (suc max_marks) (lists_values (clause_of self)) }
    {
        check_one(self)?;
        Ok(list_values(self))
    }

    pub fn get_value(self, id: BddVariable) -> Lookup
        ensures { lookup_reply result ≡ replied (gets_value (clause_of self) id.0) }
    {
        match check_mark(self, id) {
            Ok(()) => Lookup::Found(cell_at(self, id)),
            Err(refusal) => Lookup::Refused(refusal),
        }
    }

    pub fn has_value(self, id: BddVariable) -> Result<bool, Refusal>
        ensures { reply_of truth result ≡ replied (asks_value (clause_of self) id.0) }
    {
        check_mark(self, id)?;
        Ok(has_bit(self.fixed, id))
    }

    pub fn set_value(self, id: BddVariable, value: bool) -> Result<BddPartialValuation, Refusal>
        ensures { reply_of both_words result ≡ replied (sets_value (clause_of self) id.0 value) }
    {
        check_mark(self, id)?;
        Ok(with_bit(self, id, value))
    }

    pub fn unset_value(self, id: BddVariable) -> Result<BddPartialValuation, Refusal>
        ensures { reply_of both_words result ≡ replied (unsets_value (clause_of self) id.0) }
    {
        check_mark(self, id)?;
        Ok(without_bit(self, id))
    }

    // This valuation is the more specific one.
    pub fn extends(self, valuation: BddPartialValuation) -> Result<bool, Refusal>
        ensures { reply_of truth result ≡ replied (asks_extends (clause_of self) (clause_of valuation)) }
    {
        check_two(self, valuation)?;
        Ok(agree(self, valuation))
    }

    pub fn eq(self, other: BddPartialValuation) -> Result<bool, Refusal>
        ensures { reply_of truth result ≡ replied (asks_equal (clause_of self) (clause_of other)) }
    {
        check_two(self, other)?;
        Ok(self == other)
    }
}
