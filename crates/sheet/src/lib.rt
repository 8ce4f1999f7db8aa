// Sheets: a list of clauses or a table as bytes. Everything is looked at before anything is written.
#![tactic(auto)]

ghost use Rattle.std.specs.Prelude.{◌≡◌, false, [], ◌+◌, ◌*◌, ◌<◌, ◌≤◌, length, take};
ghost use Rattle.theory.specs.Words.{stride};
ghost use Rattle.refusal.specs.Buffers.{output_after};
ghost use Rattle.refusal.specs.Limits.{max_marks, max_nodes, max_clauses};
ghost use Rattle.refusal.specs.Told.{nothing, reply_of};
ghost use Rattle.refusal.specs.Verdict.{replied, judged, answered};
ghost use Rattle.table.specs.Inspection.{pointer, root_of, roots};
ghost use Rattle.entries.specs.Entries.{says};
ghost use Rattle.builders.specs.Builders.{first_bad_entry};
ghost use Rattle.sheet.specs.Bytes.{le_word, le_words};
ghost use Rattle.sheet.specs.Sheet.{table_kind, kind_number, section_words, header_bytes, clause_bytes, node_bytes, header_word, decode_header, clause_kind, headless, misplaced, gives_clauses, gives_table, Giving, clause_findings, node_findings, reads_sheet, Outcome, Headed};

use entries::{Clauses, Form};
use refusal::{MAX_CLAUSES, MAX_MARKS, MAX_NODES, Refusal, RefusalKind, Told, refuse_if};
use table::{BddPointer, NODE_WORDS};

// The header's eight words.
#[derive(Clone, Copy, PartialEq, Eq, Debug)]
pub struct Header {
    pub version: u32,
    pub n: u32,
    pub clause_count: u32,
    pub clause_offset: u32,
    pub node_count: u32,
    pub node_offset: u32,
    pub total: u32,
    pub kind: u32,
}

pub const HEADER_BYTES: usize = 32;

pub const CLAUSE_BYTES: u64 = 16;

pub const NODE_BYTES: u64 = 12;

// The words of the longest sections: a section is inspected in a local, since nothing here has a heap.
const MOST_CLAUSE_WORDS: usize = 2 * MAX_CLAUSES;

const MOST_NODE_WORDS: usize = NODE_WORDS * MAX_NODES;

// What a sheet holds.
#[derive(Clone, Copy, PartialEq, Eq, Debug)]
pub enum Kind {
    Clauses(Form),
    Table,
}

impl Kind {
    // The kind's number in a header.
    fn number(self) -> u64
        ensures { result ≡ kind_number self }
    {
        match self {
            Kind::Clauses(Form::Dnf) => 1,
            Kind::Clauses(Form::Cnf) => 2,
            Kind::Table => 3,
        }
    }
}

// The section of a sheet: its kind, its marks, and how many clauses or nodes it has.
#[derive(Clone, Copy, PartialEq, Eq, Debug)]
pub struct Section {
    pub kind: Kind,
    pub n: u16,
    pub count: usize,
}

impl Told for Section {
    ghost values = { section_words };

    #[tactic(auto, using(refusal::proofs::Zeroing::padded_first))]
    fn tell(self, out: &mut [u64]) {
        let (front, rest) = out.split_at_mut(1);
        front[0] = self.kind.number();
        refusal::tell_with(u64::from(self.n), self.count, rest);
    }
}

// The number in four bytes from a place on.
#[tactic(auto, unfolding(crate::specs::Bytes::le_word))]
fn u32_at(bytes: &[u8], at: usize) -> u32
    requires { at + 4 ≤ length bytes.now }
    ensures { result ≡ le_word 4 bytes.now at }
{
    u32::from_le_bytes([bytes[at], bytes[at + 1], bytes[at + 2], bytes[at + 3]])
}

// The number in eight bytes from a place on.
#[tactic(auto, unfolding(crate::specs::Bytes::le_word))]
fn u64_at(bytes: &[u8], at: usize) -> u64
    requires { at + 8 ≤ length bytes.now }
    ensures { result ≡ le_word 8 bytes.now at }
{
    let low = u32_at(bytes, at);
    let high = u32_at(bytes, at + 4);
    u64::from(low) + 4294967296 * u64::from(high)
}

pub fn read_header(bytes: &[u8]) -> Header
    requires { header_bytes ≤ length bytes.now }
    ensures { result ≡ decode_header bytes.now }
{
    Header {
        version: u32_at(bytes, 0),
        n: u32_at(bytes, 4),
        clause_count: u32_at(bytes, 8),
        clause_offset: u32_at(bytes, 12),
        node_count: u32_at(bytes, 16),
        node_offset: u32_at(bytes, 20),
        total: u32_at(bytes, 24),
        kind: u32_at(bytes, 28),
    }
}

// No whole header, another version, or another length than the total says.
#[tactic(auto, unfolding(crate::specs::Sheet::headless))]
fn is_headless(bytes: &[u8]) -> bool
    ensures { result ≡ headless bytes.now }
{
    if bytes.len() < HEADER_BYTES {
        return true;
    }
    let header = read_header(bytes);
    header.version != 1 || header.total as usize != bytes.len()
}

// The section does not start behind the header, the other is not empty, or the total is not exact.
#[tactic(auto, unfolding(crate::specs::Sheet::misplaced))]
fn is_misplaced(
    each: u64,
    count: u32,
    offset: u32,
    other: u32,
    other_offset: u32,
    total: u32,
) -> bool
    requires { each ≤ clause_bytes }
    ensures { result ≡ misplaced each count offset other other_offset total }
{
    offset != HEADER_BYTES as u32
        || other != 0
        || other_offset != 0
        || u64::from(total) != HEADER_BYTES as u64 + each * u64::from(count)
}

// The section's first words, read into an output. Once for each width: over both, what is filled would have to be said through the width's own numbers.
#[tactic(auto, using(crate::proofs::ByteLaws::filled_none, crate::proofs::ByteLaws::filled_more))]
fn fill_u64(bytes: &[u8], count: usize, out: &mut [u64])
    requires { (count ≤ length out.old) × (header_bytes + 8 * count ≤ length bytes.now) }
    ensures { take count out.new ≡ le_words 8 count bytes.now header_bytes }
{
    for i in 0..count {
        out[i] = u64_at(bytes, HEADER_BYTES + 8 * i);
    }
}

#[tactic(auto, using(crate::proofs::ByteLaws::filled_none, crate::proofs::ByteLaws::filled_more))]
fn fill_u32(bytes: &[u8], count: usize, out: &mut [u32])
    requires { (count ≤ length out.old) × (header_bytes + 4 * count ≤ length bytes.now) }
    ensures { take count out.new ≡ le_words 4 count bytes.now header_bytes }
{
    for i in 0..count {
        out[i] = u32_at(bytes, HEADER_BYTES + 4 * i);
    }
}

// The first malformed clause of a section, or the count.
fn first_malformed(bytes: &[u8], n: u16, count: usize) -> usize
    requires { (n ≤ max_marks) × (count ≤ max_clauses) × (header_bytes + clause_bytes * count ≤ length bytes.now) }
    ensures { result ≡ first_bad_entry false n count (le_words 8 (2 * count) bytes.now header_bytes) }
{
    let mut words = [0u64; MOST_CLAUSE_WORDS];
    let end = 2 * count;
    fill_u64(bytes, end, &mut words);
    builders::first_bad::<Clauses>(n, count, &words[..end])
}

// The root of a section's table, where every node is as ordered asks.
fn section_root(bytes: &[u8], n: u16, count: usize) -> Result<BddPointer, Refusal>
    requires { (1 ≤ count) × (count ≤ max_nodes) × (header_bytes + node_bytes * count ≤ length bytes.now) }
    ensures { reply_of pointer result ≡ replied (roots n count (le_words 4 (stride * count) bytes.now header_bytes)) }
{
    let mut words = [0u32; MOST_NODE_WORDS];
    let end = NODE_WORDS * count;
    fill_u32(bytes, end, &mut words);
    table::ordered_root(n, count, &words[..end])
}

// The tests of a sheet of clauses, in the order of their numbers.
#[tactic(auto, unfolding(refusal::specs::Number::order, refusal::specs::Verdict::judged, refusal::specs::Verdict::tried, refusal::specs::Verdict::first_of, refusal::specs::Verdict::replied, builders::specs::Builders::over_list))]
fn admit_clauses(bytes: &[u8], header: Header) -> Result<(), Refusal>
    requires { Headed bytes.now header }
    ensures { reply_of nothing result ≡ replied (judged (clause_findings header bytes.now) (answered [] [])) }
{
    let Header {
        n,
        clause_count,
        clause_offset,
        node_count,
        node_offset,
        total,
        ..
    } = header;
    let misplaced = is_misplaced(
        CLAUSE_BYTES,
        clause_count,
        clause_offset,
        node_count,
        node_offset,
        total,
    );
    refuse_if(misplaced, RefusalKind::Sheet, 0)?;
    let count = clause_count as usize;
    refuse_if(n > MAX_MARKS as u32, RefusalKind::Limit, 0)?;
    refuse_if(count > MAX_CLAUSES, RefusalKind::Limit, 0)?;
    let bad = first_malformed(bytes, n as u16, count);
    refuse_if(bad < count, RefusalKind::Clause, bad as u64)
}

// The tests of a sheet of nodes and of their output, in the order of their numbers.
#[tactic(auto, unfolding(refusal::specs::Number::order, refusal::specs::Verdict::judged, refusal::specs::Verdict::tried, refusal::specs::Verdict::first_of, refusal::specs::Verdict::replied, table::specs::Inspection::over_limit))]
fn admit_nodes(bytes: &[u8], header: Header, nodes: &[u32]) -> Result<BddPointer, Refusal>
    requires { Headed bytes.now header }
    ensures { reply_of pointer result ≡ replied (judged (node_findings header bytes.now nodes.now) (root_of header.node_count)) }
{
    let Header {
        n,
        clause_count,
        clause_offset,
        node_count,
        node_offset,
        total,
        ..
    } = header;
    let misplaced = is_misplaced(
        NODE_BYTES,
        node_count,
        node_offset,
        clause_count,
        clause_offset,
        total,
    );
    refuse_if(misplaced, RefusalKind::Sheet, 0)?;
    refuse_if(n > MAX_MARKS as u32, RefusalKind::Limit, 0)?;
    let count = node_count as usize;
    refuse_if(table::over_limit(n as u16, count), RefusalKind::Limit, 0)?;
    refuse_if(table::too_short(count, nodes), RefusalKind::Short, 0)?;
    section_root(bytes, n as u16, count)
}

// The clauses into their output, which may be too short, and no node.
fn give_clauses(
    bytes: &[u8],
    header: Header,
    form: Form,
    clauses: &mut [u64],
    nodes: &mut [u32],
) -> Result<Section, Refusal>
    requires { Giving header header.clause_count max_clauses clause_bytes bytes.now × (header.kind ≡ clause_kind (says form)) }
    ensures { Outcome (gives_clauses header bytes.now clauses.old) result clauses.old clauses.new nodes.old nodes.new }
{
    let count = header.clause_count as usize;
    let end = 2 * count;
    nodes.fill(0);
    if clauses.len() < end {
        clauses.fill(0);
        return Err(Refusal {
            kind: RefusalKind::Clauses,
            place: count as u64,
        });
    }
    fill_u64(bytes, end, clauses);
    clauses[end..].fill(0);
    Ok(Section {
        kind: Kind::Clauses(form),
        n: header.n as u16,
        count,
    })
}

// The nodes into their output, and no clause.
fn give_table(
    bytes: &[u8],
    header: Header,
    clauses: &mut [u64],
    nodes: &mut [u32],
) -> Result<Section, Refusal>
    requires { Giving header header.node_count max_nodes node_bytes bytes.now × (stride * header.node_count ≤ length nodes.old) }
    ensures { Outcome (gives_table header bytes.now) result clauses.old clauses.new nodes.old nodes.new }
{
    let count = header.node_count as usize;
    let end = NODE_WORDS * count;
    clauses.fill(0);
    fill_u32(bytes, end, nodes);
    nodes[end..].fill(0);
    Ok(Section {
        kind: Kind::Table,
        n: header.n as u16,
        count,
    })
}

fn read_clauses(
    bytes: &[u8],
    header: Header,
    form: Form,
    clauses: &mut [u64],
    nodes: &mut [u32],
) -> Result<Section, Refusal>
    requires { Headed bytes.now header × (header.kind ≡ clause_kind (says form)) }
    ensures { Outcome (reads_sheet bytes.now clauses.old nodes.old) result clauses.old clauses.new nodes.old nodes.new }
{
    admit_clauses(bytes, header)?;
    give_clauses(bytes, header, form, clauses, nodes)
}

fn read_table(
    bytes: &[u8],
    header: Header,
    clauses: &mut [u64],
    nodes: &mut [u32],
) -> Result<Section, Refusal>
    requires { Headed bytes.now header × (header.kind ≡ table_kind) }
    ensures { Outcome (reads_sheet bytes.now clauses.old nodes.old) result clauses.old clauses.new nodes.old nodes.new }
{
    admit_nodes(bytes, header, &*nodes)?;
    give_table(bytes, header, clauses, nodes)
}

const NO_SHEET: Refusal = Refusal {
    kind: RefusalKind::Sheet,
    place: 0,
};

// The section that the header's kind names; 4 to 15 are reserved.
fn read_section(
    bytes: &[u8],
    header: Header,
    clauses: &mut [u64],
    nodes: &mut [u32],
) -> Result<Section, Refusal>
    requires { Headed bytes.now header }
    ensures { Outcome (reads_sheet bytes.now clauses.old nodes.old) result clauses.old clauses.new nodes.old nodes.new }
{
    let kind = header.kind;
    match kind {
        1 => read_clauses(bytes, header, Form::Dnf, clauses, nodes),
        2 => read_clauses(bytes, header, Form::Cnf, clauses, nodes),
        3 => read_table(bytes, header, clauses, nodes),
        4..=15 => Err(NO_SHEET),
        _ => Err(NO_SHEET),
    }
}

// Reads a sheet: its section's words into the output of its kind, and none into the other.
pub fn read_sheet(bytes: &[u8], clauses: &mut [u64], nodes: &mut [u32]) -> Result<Section, Refusal>
    ensures result_value { reply_of section_words result ≡ replied (reads_sheet bytes.now clauses.old nodes.old) }
    ensures clauses_after { clauses.new ≡ output_after 0 (reads_sheet bytes.now clauses.old nodes.old) clauses.old }
    ensures nodes_after { nodes.new ≡ output_after 1 (reads_sheet bytes.now clauses.old nodes.old) nodes.old }
{
    if is_headless(bytes) {
        return Err(NO_SHEET);
    }
    read_section(bytes, read_header(bytes), clauses, nodes)
}
