// What lists of clauses and of cases have in common: their form, and their entries as clauses. Inner.
#![tactic(auto)]

ghost use Rattle.std.specs.Prelude.{◌≡◌, true, false, cond, Bool, ℕ, ◌-◌, ◌≤◌};
ghost use Rattle.std.proofs.Common.{refl};
ghost use Rattle.refusal.specs.Limits.{max_marks};
ghost use Rattle.refusal.specs.Number.{VARIABLE, CLAUSE, number_of};
ghost use Rattle.refusal.specs.declared.RefusalKind.{RefusalKind};
ghost use Rattle.refusal.specs.declared.RefusalKind.TheVariants.{Variable, Clause};
ghost use Rattle.valuation.specs.Valuation.{clause_of};
ghost use Rattle.cube.specs.Cube.{entry_at};
ghost use Rattle.entries.specs.Entries.{says, term_of, Within};

use refusal::RefusalKind;
use table::BddPointer;
use valuation::BddPartialValuation;

// The form of a clause list. Its number is the constant that the cubes of its clauses lead to.
#[derive(Clone, Copy, PartialEq, Eq, Debug)]
pub enum Form {
    Cnf = 0,
    Dnf = 1,
}

impl Form {
    // What the table says on a clause's cube.
    pub fn says(self) -> bool
        ensures { result ≡ says self }
    {
        self == Form::Dnf
    }

    // The constant that says so.
    pub fn term(self) -> BddPointer
        ensures { result.0 ≡ term_of self }
    {
        BddPointer(self as u32)
    }

    // What the empty list is: the other constant.
    pub fn empty(self) -> BddPointer
        ensures { result.0 ≡ 1 - term_of self }
    {
        BddPointer(1 - self as u32)
    }
}

// A kind of list: how many words an entry has, what a bad entry is refused with, and an entry as a clause.
pub trait Entries {
    // Each entry is a case.
    ghost cases: { Bool };

    ghost WORDS: { ℕ };

    const WORDS: usize;

    ghost BAD: { RefusalKind };

    const BAD: RefusalKind;

    fn entry_at(n: u16, list: &[u64], i: usize) -> BddPartialValuation
        requires { (n ≤ max_marks) × Within cases i list.now }
        ensures { clause_of result ≡ entry_at cases n list.now i };

    ghost words_are: { WORDS ≡ cond cases 1 2 };

    ghost bad_is: { number_of BAD ≡ cond cases VARIABLE CLAUSE };
}

// Two words a clause: fixed marks, values.
pub struct Clauses;

impl Entries for Clauses {
    ghost cases = { false };

    ghost WORDS = { 2 };

    const WORDS: usize = 2;

    ghost BAD = { Clause };

    const BAD: RefusalKind = RefusalKind::Clause;

    fn entry_at(_n: u16, list: &[u64], i: usize) -> BddPartialValuation {
        BddPartialValuation {
            fixed: list[2 * i],
            values: list[2 * i + 1],
        }
    }

    ghost words_are = { refl };

    ghost bad_is = { refl };
}

// One word a case: as a clause it fixes every mark.
pub struct Cases;

impl Entries for Cases {
    ghost cases = { true };

    ghost WORDS = { 1 };

    const WORDS: usize = 1;

    ghost BAD = { Variable };

    const BAD: RefusalKind = RefusalKind::Variable;

    fn entry_at(n: u16, list: &[u64], i: usize) -> BddPartialValuation {
        BddPartialValuation {
            fixed: (1 << n) - 1,
            values: list[i],
        }
    }

    ghost words_are = { refl };

    ghost bad_is = { refl };
}
