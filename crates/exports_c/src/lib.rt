// The entries for C and Rust programs: each is the function of its name in `exports`, with the same clauses. A static library exports only functions of its own, and
// no crate can stand on one, so the C interface needs each of them twice.
#![tactic(auto)]

ghost use Rattle.std.specs.Prelude.{◌≡◌, not, eqb};
ghost use Rattle.table.specs.Inspection.{inspects};
ghost use Rattle.table.specs.Case.{evaluates};
ghost use Rattle.theory.specs.Clause.{clause};
ghost use Rattle.valuation.specs.Replies.{replied_in};
ghost use Rattle.valuation.specs.Valuation.{says_clause, asks_empty, counts_fixed, finds_last, gathers_values, lists_values, gets_value, asks_value, sets_value, unsets_value, asks_extends, asks_equal};
ghost use Rattle.operators.specs.Operators.{makes_and, makes_or, makes_and_not, makes_for_all, makes_exists};
ghost use Rattle.builders.specs.Builders.{makes_dnf, makes_cnf, makes_dnf_valuation, makes_cnf_valuation};
ghost use Rattle.cover.specs.Cover.{checks_cover};
ghost use Rattle.lists.specs.Lists.{lists_dnf, lists_cnf};
ghost use Rattle.sheet.specs.Sheet.{reads_sheet};
ghost use Rattle.reduced.specs.Reduced.{admits_walk};
ghost use Rattle.walk.specs.Step.{tells, walk_clauses};
ghost use Rattle.short.specs.Short.{lists_short};
ghost use Rattle.unary.specs.Unary.{negates, restricts, supports, counts_cases};
ghost use Rattle.replies.specs.Replies.{Exported, ExportedWork, ExportedPair, reply_words, accepted, buffer_with, reply_after};
ghost use Rattle.exports.specs.Exports.{posts};

#[unsafe(no_mangle)]
pub extern "C" fn collartug_inspect(n: u16, count: usize, bdd: &[u32], reply: &mut [u64]) -> u64
    ensures { (result ≡ accepted reply.old) × (reply.new ≡ reply_after (inspects n count bdd.now) reply.old) }
{
    exports::collartug_inspect(n, count, bdd, reply)
}

#[unsafe(no_mangle)]
pub extern "C" fn collartug_eval_in(
    n: u16,
    count: usize,
    bdd: &[u32],
    case: u64,
    reply: &mut [u64],
) -> u64
    ensures { (result ≡ accepted reply.old) × (reply.new ≡ reply_after (evaluates n count bdd.now case) reply.old) }
{
    exports::collartug_eval_in(n, count, bdd, case, reply)
}

#[unsafe(no_mangle)]
pub extern "C" fn collartug_is_empty(fixed: u64, values: u64, reply: &mut [u64]) -> u64
    ensures { (result ≡ accepted reply.old) × (reply.new ≡ reply_after (asks_empty (clause fixed values)) reply.old) }
{
    exports::collartug_is_empty(fixed, values, reply)
}

#[unsafe(no_mangle)]
pub extern "C" fn collartug_cardinality(fixed: u64, values: u64, reply: &mut [u64]) -> u64
    ensures { (result ≡ accepted reply.old) × (reply.new ≡ reply_after (counts_fixed (clause fixed values)) reply.old) }
{
    exports::collartug_cardinality(fixed, values, reply)
}

#[unsafe(no_mangle)]
pub extern "C" fn collartug_last_fixed_variable(fixed: u64, values: u64, reply: &mut [u64]) -> u64
    ensures { (result ≡ accepted reply.old) × (reply.new ≡ reply_after (finds_last (clause fixed values)) reply.old) }
{
    exports::collartug_last_fixed_variable(fixed, values, reply)
}

#[unsafe(no_mangle)]
pub extern "C" fn collartug_get_value(fixed: u64, values: u64, id: u16, reply: &mut [u64]) -> u64
    ensures { (result ≡ accepted reply.old) × (reply.new ≡ reply_after (gets_value (clause fixed values) id) reply.old) }
{
    exports::collartug_get_value(fixed, values, id, reply)
}

#[unsafe(no_mangle)]
pub extern "C" fn collartug_has_value(fixed: u64, values: u64, id: u16, reply: &mut [u64]) -> u64
    ensures { (result ≡ accepted reply.old) × (reply.new ≡ reply_after (asks_value (clause fixed values) id) reply.old) }
{
    exports::collartug_has_value(fixed, values, id, reply)
}

#[unsafe(no_mangle)]
pub extern "C" fn collartug_set_value(
    fixed: u64,
    values: u64,
    id: u16,
    value: u64,
    reply: &mut [u64],
) -> u64
    ensures { (result ≡ accepted reply.old) × (reply.new ≡ reply_after (sets_value (clause fixed values) id (not (eqb value 0))) reply.old) }
{
    exports::collartug_set_value(fixed, values, id, value, reply)
}

#[unsafe(no_mangle)]
pub extern "C" fn collartug_unset_value(fixed: u64, values: u64, id: u16, reply: &mut [u64]) -> u64
    ensures { (result ≡ accepted reply.old) × (reply.new ≡ reply_after (unsets_value (clause fixed values) id) reply.old) }
{
    exports::collartug_unset_value(fixed, values, id, reply)
}

#[unsafe(no_mangle)]
pub extern "C" fn collartug_extends(
    fixed: u64,
    values: u64,
    other_fixed: u64,
    other_values: u64,
    reply: &mut [u64],
) -> u64
    ensures { (result ≡ accepted reply.old) × (reply.new ≡ reply_after (asks_extends (clause fixed values) (clause other_fixed other_values)) reply.old) }
{
    exports::collartug_extends(fixed, values, other_fixed, other_values, reply)
}

#[unsafe(no_mangle)]
pub extern "C" fn collartug_eq(
    fixed: u64,
    values: u64,
    other_fixed: u64,
    other_values: u64,
    reply: &mut [u64],
) -> u64
    ensures { (result ≡ accepted reply.old) × (reply.new ≡ reply_after (asks_equal (clause fixed values) (clause other_fixed other_values)) reply.old) }
{
    exports::collartug_eq(fixed, values, other_fixed, other_values, reply)
}

#[unsafe(no_mangle)]
pub extern "C" fn collartug_empty(reply: &mut [u64]) -> u64
    ensures { (result ≡ accepted reply.old) × (reply.new ≡ reply_after (says_clause (clause 0 0)) reply.old) }
{
    exports::collartug_empty(reply)
}

#[unsafe(no_mangle)]
pub extern "C" fn collartug_from_values(values: &[u32], reply: &mut [u64]) -> u64
    ensures { (result ≡ accepted reply.old) × (reply.new ≡ reply_after (gathers_values values.now) reply.old) }
{
    exports::collartug_from_values(values, reply)
}

#[unsafe(no_mangle)]
pub extern "C" fn collartug_to_values(fixed: u64, values: u64, reply: &mut [u64]) -> u64
    ensures { (result ≡ accepted reply.old) × (reply.new ≡ buffer_with (reply_words (replied_in 61 (lists_values (clause fixed values)))) reply.old) }
{
    exports::collartug_to_values(fixed, values, reply)
}

#[unsafe(no_mangle)]
pub extern "C" fn collartug_and(
    n: u16,
    left_count: usize,
    left: &[u32],
    right_count: usize,
    right: &[u32],
    room: usize,
    out: &mut [u32],
    work: &mut [u32],
    reply: &mut [u64],
) -> u64
    ensures { Exported (makes_and n left_count left.now right_count right.now room out.old work.old) result out.old out.new work.old work.new reply.old reply.new }
{
    exports::collartug_and(
        n,
        left_count,
        left,
        right_count,
        right,
        room,
        out,
        work,
        reply,
    )
}

#[unsafe(no_mangle)]
pub extern "C" fn collartug_or(
    n: u16,
    left_count: usize,
    left: &[u32],
    right_count: usize,
    right: &[u32],
    room: usize,
    out: &mut [u32],
    work: &mut [u32],
    reply: &mut [u64],
) -> u64
    ensures { Exported (makes_or n left_count left.now right_count right.now room out.old work.old) result out.old out.new work.old work.new reply.old reply.new }
{
    exports::collartug_or(
        n,
        left_count,
        left,
        right_count,
        right,
        room,
        out,
        work,
        reply,
    )
}

#[unsafe(no_mangle)]
pub extern "C" fn collartug_and_not(
    n: u16,
    left_count: usize,
    left: &[u32],
    right_count: usize,
    right: &[u32],
    room: usize,
    out: &mut [u32],
    work: &mut [u32],
    reply: &mut [u64],
) -> u64
    ensures { Exported (makes_and_not n left_count left.now right_count right.now room out.old work.old) result out.old out.new work.old work.new reply.old reply.new }
{
    exports::collartug_and_not(
        n,
        left_count,
        left,
        right_count,
        right,
        room,
        out,
        work,
        reply,
    )
}

#[unsafe(no_mangle)]
pub extern "C" fn collartug_var_for_all(
    n: u16,
    count: usize,
    bdd: &[u32],
    variable: u16,
    room: usize,
    out: &mut [u32],
    work: &mut [u32],
    reply: &mut [u64],
) -> u64
    ensures { Exported (makes_for_all n count bdd.now variable room out.old work.old) result out.old out.new work.old work.new reply.old reply.new }
{
    exports::collartug_var_for_all(n, count, bdd, variable, room, out, work, reply)
}

#[unsafe(no_mangle)]
pub extern "C" fn collartug_var_exists(
    n: u16,
    count: usize,
    bdd: &[u32],
    variable: u16,
    room: usize,
    out: &mut [u32],
    work: &mut [u32],
    reply: &mut [u64],
) -> u64
    ensures { Exported (makes_exists n count bdd.now variable room out.old work.old) result out.old out.new work.old work.new reply.old reply.new }
{
    exports::collartug_var_exists(n, count, bdd, variable, room, out, work, reply)
}

#[unsafe(no_mangle)]
pub extern "C" fn collartug_not(
    n: u16,
    count: usize,
    bdd: &[u32],
    room: usize,
    out: &mut [u32],
    work: &mut [u32],
    reply: &mut [u64],
) -> u64
    ensures { Exported (negates n count bdd.now room out.old work.old) result out.old out.new work.old work.new reply.old reply.new }
{
    exports::collartug_not(n, count, bdd, room, out, work, reply)
}

#[unsafe(no_mangle)]
pub extern "C" fn collartug_var_restrict(
    n: u16,
    count: usize,
    bdd: &[u32],
    variable: u16,
    value: u64,
    room: usize,
    out: &mut [u32],
    work: &mut [u32],
    reply: &mut [u64],
) -> u64
    ensures { Exported (restricts n count bdd.now variable (not (eqb value 0)) room out.old work.old) result out.old out.new work.old work.new reply.old reply.new }
{
    exports::collartug_var_restrict(n, count, bdd, variable, value, room, out, work, reply)
}

#[unsafe(no_mangle)]
pub extern "C" fn collartug_support_set(
    n: u16,
    count: usize,
    bdd: &[u32],
    work: &mut [u32],
    reply: &mut [u64],
) -> u64
    ensures { ExportedWork (supports n count bdd.now work.old) result work.old work.new reply.old reply.new }
{
    exports::collartug_support_set(n, count, bdd, work, reply)
}

#[unsafe(no_mangle)]
pub extern "C" fn collartug_exact_cardinality(
    n: u16,
    count: usize,
    bdd: &[u32],
    work: &mut [u32],
    reply: &mut [u64],
) -> u64
    ensures { ExportedWork (counts_cases n count bdd.now work.old) result work.old work.new reply.old reply.new }
{
    exports::collartug_exact_cardinality(n, count, bdd, work, reply)
}

#[unsafe(no_mangle)]
pub extern "C" fn collartug_mk_dnf(
    n: u16,
    count: usize,
    clauses: &[u64],
    room: usize,
    out: &mut [u32],
    work: &mut [u32],
    reply: &mut [u64],
) -> u64
    ensures { Exported (makes_dnf n count clauses.now room out.old work.old) result out.old out.new work.old work.new reply.old reply.new }
{
    exports::collartug_mk_dnf(n, count, clauses, room, out, work, reply)
}

#[unsafe(no_mangle)]
pub extern "C" fn collartug_mk_cnf(
    n: u16,
    count: usize,
    clauses: &[u64],
    room: usize,
    out: &mut [u32],
    work: &mut [u32],
    reply: &mut [u64],
) -> u64
    ensures { Exported (makes_cnf n count clauses.now room out.old work.old) result out.old out.new work.old work.new reply.old reply.new }
{
    exports::collartug_mk_cnf(n, count, clauses, room, out, work, reply)
}

#[unsafe(no_mangle)]
pub extern "C" fn collartug_mk_dnf_valuation(
    n: u16,
    count: usize,
    cases: &[u64],
    room: usize,
    out: &mut [u32],
    work: &mut [u32],
    reply: &mut [u64],
) -> u64
    ensures { Exported (makes_dnf_valuation n count cases.now room out.old work.old) result out.old out.new work.old work.new reply.old reply.new }
{
    exports::collartug_mk_dnf_valuation(n, count, cases, room, out, work, reply)
}

#[unsafe(no_mangle)]
pub extern "C" fn collartug_mk_cnf_valuation(
    n: u16,
    count: usize,
    cases: &[u64],
    room: usize,
    out: &mut [u32],
    work: &mut [u32],
    reply: &mut [u64],
) -> u64
    ensures { Exported (makes_cnf_valuation n count cases.now room out.old work.old) result out.old out.new work.old work.new reply.old reply.new }
{
    exports::collartug_mk_cnf_valuation(n, count, cases, room, out, work, reply)
}

#[unsafe(no_mangle)]
pub extern "C" fn collartug_check_cover(
    n: u16,
    count: usize,
    bdd: &[u32],
    clause_count: usize,
    clauses: &[u64],
    room: usize,
    work: &mut [u32],
    reply: &mut [u64],
) -> u64
    ensures { ExportedWork (checks_cover n count bdd.now clause_count clauses.now room work.old) result work.old work.new reply.old reply.new }
{
    exports::collartug_check_cover(n, count, bdd, clause_count, clauses, room, work, reply)
}

#[unsafe(no_mangle)]
pub extern "C" fn collartug_to_dnf(
    n: u16,
    count: usize,
    bdd: &[u32],
    out: &mut [u64],
    work: &mut [u32],
    reply: &mut [u64],
) -> u64
    ensures { Exported (lists_dnf n count bdd.now out.old work.old) result out.old out.new work.old work.new reply.old reply.new }
{
    exports::collartug_to_dnf(n, count, bdd, out, work, reply)
}

#[unsafe(no_mangle)]
pub extern "C" fn collartug_to_cnf(
    n: u16,
    count: usize,
    bdd: &[u32],
    out: &mut [u64],
    work: &mut [u32],
    reply: &mut [u64],
) -> u64
    ensures { Exported (lists_cnf n count bdd.now out.old work.old) result out.old out.new work.old work.new reply.old reply.new }
{
    exports::collartug_to_cnf(n, count, bdd, out, work, reply)
}

#[unsafe(no_mangle)]
pub extern "C" fn collartug_read_sheet(
    bytes: &[u8],
    clauses: &mut [u64],
    nodes: &mut [u32],
    reply: &mut [u64],
) -> u64
    ensures { ExportedPair (reads_sheet bytes.now clauses.old nodes.old) result clauses.old clauses.new nodes.old nodes.new reply.old reply.new }
{
    exports::collartug_read_sheet(bytes, clauses, nodes, reply)
}

#[unsafe(no_mangle)]
pub extern "C" fn collartug_walk_check(n: u16, count: usize, bdd: &[u32], reply: &mut [u64]) -> u64
    ensures { (result ≡ accepted reply.old) × (reply.new ≡ reply_after (admits_walk n count bdd.now) reply.old) }
{
    exports::collartug_walk_check(n, count, bdd, reply)
}

#[unsafe(no_mangle)]
pub extern "C" fn collartug_kth_step(
    n: u16,
    count: usize,
    bdd: &[u32],
    k: u32,
    reply: &mut [u64],
) -> u64
    ensures { (result ≡ accepted reply.old) × (reply.new ≡ reply_after (tells (walk_clauses n count bdd.now) k) reply.old) }
{
    exports::collartug_kth_step(n, count, bdd, k, reply)
}

#[unsafe(no_mangle)]
pub extern "C" fn collartug_choose_posting<'a>(
    dnf: &'a [u64],
    cnf: &'a [u64],
    reply: &mut [u64],
) -> u64
    ensures { (result ≡ accepted reply.old) × (reply.new ≡ reply_after (posts dnf.now cnf.now) reply.old) }
{
    exports::collartug_choose_posting(dnf, cnf, reply)
}

#[unsafe(no_mangle)]
pub extern "C" fn collartug_to_optimized_dnf(
    n: u16,
    count: usize,
    bdd: &[u32],
    room: usize,
    out: &mut [u64],
    work: &mut [u32],
    reply: &mut [u64],
) -> u64
    ensures { Exported (lists_short n count bdd.now room out.old work.old) result out.old out.new work.old work.new reply.old reply.new }
{
    exports::collartug_to_optimized_dnf(n, count, bdd, room, out, work, reply)
}
