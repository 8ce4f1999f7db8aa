// Posting choice: which of two clause lists is posted.
#![tactic(auto)]

ghost use Rattle.std.specs.Prelude.{◌≡◌, cond};
ghost use Rattle.posting.specs.Posting.{measure, whole_clauses, posts_dnf, posting};

// The number of whole clauses.
fn measure_of(clauses: &[u64]) -> usize
    ensures { result ≡ measure clauses.now }
{
    clauses.len() / 2
}

// The whole clauses, as a part of the caller's own words: it starts where they start.
fn whole_clauses<'a>(clauses: &'a [u64]) -> &'a [u64]
    ensures result_value { result.now ≡ whole_clauses clauses.now }
    ensures ref_ptr_value { result.ref_ptr ≡ clauses.entry.ref_ptr }
{
    let end = 2 * (clauses.len() / 2);
    &clauses[..end]
}

// The list with fewer clauses; a tie gives the DNF. Words that only pad a buffer with zeros count as clauses: pass the part that is filled.
pub fn choose_posting<'a>(dnf: &'a [u64], cnf: &'a [u64]) -> &'a [u64]
    ensures result_value { result.now ≡ posting dnf.now cnf.now }
    ensures ref_ptr_value { result.ref_ptr ≡ cond (posts_dnf dnf.now cnf.now) dnf.entry.ref_ptr cnf.entry.ref_ptr }
{
    if measure_of(dnf) <= measure_of(cnf) {
        whole_clauses(dnf)
    } else {
        whole_clauses(cnf)
    }
}
