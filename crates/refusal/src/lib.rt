// Refusals with the specification's numbers, what an answer tells in numbers, the limits. Inner.
#![tactic(auto)]

ghost use Rattle.std.specs.Prelude.{◌≡◌, Some, ◌≤◌, ◌+◌, ◌∷◌, List, ℕ, length, take};
ghost use Rattle.refusal.specs.Number.{number_of};
ghost use Rattle.refusal.specs.Told.{number, truth, nothing, optional, refuse_if};
ghost use Rattle.refusal.specs.Shown.{refused_text};
ghost use Rattle.refusal.specs.Buffers.{padded};

use std::fmt;

// What is wrong with a call, with the specification's number.
#[derive(Clone, Copy, PartialEq, Eq, Debug)]
pub enum RefusalKind {
    Limit = 1,
    Short = 2,
    Variable = 3,
    Clause = 4,
    Table = 5,
    Reduced = 6,
    Nodes = 7,
    Clauses = 8,
    Sheet = 9,
}

impl RefusalKind {
    pub fn number(self) -> u8
        ensures { result ≡ number_of self }
    {
        self as u8
    }
}

// A refusal: its kind, and the place that it returns with it.
#[derive(Clone, Copy, PartialEq, Eq, Debug)]
pub struct Refusal {
    pub kind: RefusalKind,
    pub place: u64,
}

impl fmt::Display for Refusal {
    ghost output = { λ r. Some (refused_text r) };

    fn fmt<W: fmt::Write>(&self, f: &mut fmt::Formatter<W>) -> fmt::Result {
        write!(f, "refused {} {}", self.kind.number(), self.place)
    }
}

// Refuses where something is wrong.
pub fn refuse_if(wrong: bool, kind: RefusalKind, place: u64) -> Result<(), Refusal>
    ensures { result ≡ refuse_if wrong kind place }
{
    if wrong {
        return Err(Refusal { kind, place });
    }
    Ok(())
}

// The most marks of a table or a valuation.
pub const MAX_MARKS: u16 = 60;

// The most nodes of a table, and of a room.
pub const MAX_NODES: usize = 4096;

// The least node room.
pub const MIN_ROOM: usize = 2;

// The most input clauses or cases.
pub const MAX_CLAUSES: usize = 1024;

// The values of an answer that is not refused.
pub trait Told: Drop {
    ghost values: { Self → List ℕ };

    // The values at the front of a buffer, zeros behind them.
    fn tell(self, out: &mut [u64])
        requires { length (values self) ≤ length out.old }
        ensures { out.new ≡ padded (values self) (length out.old) };
}

impl Told for () {
    ghost values = { nothing };

    #[tactic(auto, using(crate::proofs::Zeroing::zeroed), unfolding(crate::specs::Buffers::padded))]
    fn tell(self, out: &mut [u64]) {
        out.fill(0);
    }
}

// One number, and then the values of another answer.
#[tactic(auto, using(crate::proofs::Zeroing::padded_first))]
pub fn tell_with<T: Told>(first: u64, others: T, out: &mut [u64])
    requires { 1 + length (T.values others) ≤ length out.old }
    ensures { out.new ≡ padded (first ∷ T.values others) (length out.old) }
{
    let (front, rest) = out.split_at_mut(1);
    front[0] = first;
    others.tell(rest);
}

impl Told for u64 {
    ghost values = { number };

    fn tell(self, out: &mut [u64]) {
        tell_with(self, (), out);
    }
}

impl Told for usize {
    ghost values = { number };

    fn tell(self, out: &mut [u64]) {
        tell_with(self as u64, (), out);
    }
}

impl Told for bool {
    ghost values = { truth };

    fn tell(self, out: &mut [u64]) {
        tell_with(if self { 1 } else { 0 }, (), out);
    }
}

impl<T: Told> Told for Option<T> {
    ghost values = { optional T.values };

    fn tell(self, out: &mut [u64]) {
        match self {
            None => tell_with(0, (), out),
            Some(value) => tell_with(1, value, out),
        }
    }
}
