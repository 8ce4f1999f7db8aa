// The extractors: a table's path list, as a DNF or as a CNF.
#![tactic(auto)]

ghost use Rattle.std.specs.Prelude.{◌≡◌};
ghost use Rattle.refusal.specs.Told.{number, reply_of};
ghost use Rattle.refusal.specs.Verdict.{replied};
ghost use Rattle.refusal.specs.Buffers.{output_after, work_after};
ghost use Rattle.entries.specs.Entries.{says};
ghost use Rattle.listing.proofs.ListedLaws.{Outcome};
ghost use Rattle.lists.specs.Lists.{lists_paths, lists_dnf, lists_cnf};

use entries::Form;
use refusal::Refusal;
use table::{Inspection, Table};

// An extractor, whatever the form of its list.
fn list_table(
    form: Form,
    n: u16,
    count: usize,
    bdd: &[u32],
    out: &mut [u64],
    work: &mut [u32],
) -> Result<usize, Refusal>
    ensures { Outcome (lists_paths (says form) n count bdd.now out.old work.old) result out.old out.new work.old work.new }
{
    let admitted = admission::admit_table_work(n, count, bdd, &*work);
    let Inspection::Sound(root) = admitted else {
        return Err(admitted.refusal());
    };
    let table = Table {
        n,
        count,
        words: bdd,
        root,
    };
    let written = listing::write_paths(table, form, out, work);
    listing::settle(written, out, work)
}

// Both names are the specification's, and C calls them: each is one line over the list's form.

// One clause for each path to node 1, two words each: low branch first, low sets 0, high sets 1.
pub fn to_dnf(
    n: u16,
    count: usize,
    bdd: &[u32],
    out: &mut [u64],
    work: &mut [u32],
) -> Result<usize, Refusal>
    ensures result_value { reply_of number result ≡ replied (lists_dnf n count bdd.now out.old work.old) }
    ensures out_after { out.new ≡ output_after 0 (lists_dnf n count bdd.now out.old work.old) out.old }
    ensures work_after { work.new ≡ work_after (lists_dnf n count bdd.now out.old work.old) work.old }
{
    list_table(Form::Dnf, n, count, bdd, out, work)
}

// One clause for each path to node 0, two words each: low branch first, low sets 1, high sets 0.
pub fn to_cnf(
    n: u16,
    count: usize,
    bdd: &[u32],
    out: &mut [u64],
    work: &mut [u32],
) -> Result<usize, Refusal>
    ensures result_value { reply_of number result ≡ replied (lists_cnf n count bdd.now out.old work.old) }
    ensures out_after { out.new ≡ output_after 0 (lists_cnf n count bdd.now out.old work.old) out.old }
    ensures work_after { work.new ≡ work_after (lists_cnf n count bdd.now out.old work.old) work.old }
{
    list_table(Form::Cnf, n, count, bdd, out, work)
}
