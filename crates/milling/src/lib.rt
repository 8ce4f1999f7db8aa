// The program as a function: a sheet's bytes in, the whole text out. Inner.
#![tactic(auto)]

ghost use Rattle.std.specs.Prelude.{◌≡◌, ◌*◌, ◌≤◌, length};
ghost use Rattle.refusal.specs.Limits.{max_marks, max_clauses};
ghost use Rattle.refusal.specs.Buffers.{output_after};
ghost use Rattle.refusal.specs.Told.{number, reply_of};
ghost use Rattle.refusal.specs.Verdict.{replied};
ghost use Rattle.text.specs.Text.{text_room};
ghost use Rattle.text.specs.Writing.{Prints};
ghost use Rattle.entries.specs.Entries.{says};
ghost use Rattle.sheet.specs.Sheet.{clause_kind};
ghost use Rattle.milling.specs.Mill.{node_buffer, blank, not_taken, builds_kind, cnf_text, table_text, list_text, mill_text, Tells};

use entries::Form;
use listing::CLAUSE_WORDS;
use refusal::{MAX_CLAUSES, Refusal, RefusalKind, refuse_if};
use sheet::{HEADER_BYTES, Kind};
use table::NODE_WORDS;

pub const INPUT_LIMIT: usize = 65536;

const NODE_ROOM: usize = 1024;

// The buffers are locals of a fixed length, since nothing here has a heap.
const NODE_BUFFER: usize = NODE_WORDS * NODE_ROOM;

const WORK_BUFFER: usize = 12 * NODE_ROOM + 192;

const CLAUSE_BUFFER: usize = CLAUSE_WORDS * MAX_CLAUSES;

// Over 65,536 bytes, or a table.
#[tactic(auto, unfolding(crate::specs::Mill::not_taken))]
fn is_not_taken(bytes: &[u8]) -> bool
    ensures { result ≡ not_taken bytes.now }
{
    bytes.len() > INPUT_LIMIT || bytes.len() >= HEADER_BYTES && sheet::read_header(bytes).kind == 3
}

fn build(
    form: Form,
    n: u16,
    count: usize,
    clauses: &[u64],
    nodes: &mut [u32],
) -> Result<usize, Refusal>
    requires { nodes.old ≡ blank node_buffer }
    ensures result_value { reply_of number result ≡ replied (builds_kind (clause_kind (says form)) n count clauses.now) }
    ensures nodes_after { nodes.new ≡ output_after 0 (builds_kind (clause_kind (says form)) n count clauses.now) nodes.old }
{
    let mut work = [0u32; WORK_BUFFER];
    match form {
        Form::Dnf => builders::mk_dnf(n, count, clauses, NODE_ROOM, nodes, &mut work),
        Form::Cnf => builders::mk_cnf(n, count, clauses, NODE_ROOM, nodes, &mut work),
    }
}

// The CNF, and the whole text.
fn mill_cnf(
    n: u16,
    count: usize,
    table: &[u32],
    dnf_count: usize,
    dnf: &[u64],
    out: &mut [u8],
) -> Result<usize, Refusal>
    requires { (n ≤ max_marks) × (dnf_count ≤ max_clauses) × (2 * dnf_count ≤ length dnf.now) × (text_room ≤ length out.old) }
    ensures { Tells (cnf_text n count table.now dnf_count dnf.now) out.old out.new result }
{
    let mut cnf = [0u64; CLAUSE_BUFFER];
    let mut work = [0u32; WORK_BUFFER];
    let listed = lists::to_cnf(n, count, table, &mut cnf, &mut work)?;
    Ok(text::put_whole(out, n, count, dnf_count, dnf, listed, &cnf))
}

// The DNF, and on.
fn mill_table(n: u16, count: usize, table: &[u32], out: &mut [u8]) -> Result<usize, Refusal>
    requires { (n ≤ max_marks) × (text_room ≤ length out.old) }
    ensures { Tells (table_text n count table.now) out.old out.new result }
{
    let mut dnf = [0u64; CLAUSE_BUFFER];
    let mut work = [0u32; WORK_BUFFER];
    let listed = lists::to_dnf(n, count, table, &mut dnf, &mut work)?;
    mill_cnf(n, count, table, listed, &dnf, out)
}

// The table of a list, and on.
fn mill_list(
    form: Form,
    n: u16,
    count: usize,
    clauses: &[u64],
    out: &mut [u8],
) -> Result<usize, Refusal>
    requires { (n ≤ max_marks) × (text_room ≤ length out.old) }
    ensures { Tells (list_text (clause_kind (says form)) n count clauses.now) out.old out.new result }
{
    let mut nodes = [0u32; NODE_BUFFER];
    let made = build(form, n, count, clauses, &mut nodes)?;
    mill_table(n, made, &nodes, out)
}

// The sheet, and on.
fn mill_sheet(bytes: &[u8], out: &mut [u8]) -> Result<usize, Refusal>
    requires { text_room ≤ length out.old }
    ensures { Tells (mill_text bytes.now) out.old out.new result }
{
    refuse_if(is_not_taken(bytes), RefusalKind::Sheet, 0)?;
    let mut clauses = [0u64; CLAUSE_BUFFER];
    let mut nodes = [0u32; NODE_BUFFER];
    let section = sheet::read_sheet(bytes, &mut clauses, &mut nodes)?;
    match section.kind {
        Kind::Clauses(form) => mill_list(form, section.n, section.count, &clauses, out),
        Kind::Table => Err(Refusal {
            kind: RefusalKind::Sheet,
            place: 0,
        }),
    }
}

// All that the program prints for an input, written to the front of out; its length.
pub fn mill(bytes: &[u8], out: &mut [u8]) -> usize
    requires { text_room ≤ length out.old }
    ensures { Prints (mill_text bytes.now) out.old out.new result }
{
    match mill_sheet(bytes, out) {
        Ok(end) => end,
        Err(refusal) => text::put_refusal(out, refusal),
    }
}
