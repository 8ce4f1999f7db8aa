// The program's lines, written one behind the other into a lent buffer. Inner.
// Not by `fmt`: what a writer may answer is Ok or Err, and these lines are promised for every input.
#![tactic(auto)]

ghost use Rattle.std.specs.Prelude.{◌≡◌, ◌+◌, ◌*◌, ◌%◌, ◌<◌, ◌≤◌, [], ◌∷◌, length};
ghost use Rattle.theory.specs.Clause.{clause, cell};
ghost use Rattle.refusal.specs.Limits.{max_marks, max_clauses};
ghost use Rattle.refusal.specs.Number.{number_of};
ghost use Rattle.text.specs.Text.{text_room, decimal, cell_char, cell_chars, clause_line, clause_lines, count_line, list_text, whole_text, refused_text};
ghost use Rattle.text.specs.Writing.{Fits, Appends, Prints};

use refusal::Refusal;
use valuation::{BddPartialValuation, BddVariable};

// Text at the front of a lent buffer.
#[derive(Drop)]
struct Text<'a> {
    out: &'a mut [u8],
    len: usize,
}

impl Text<'_> {
    fn put_byte(&mut self, byte: u8)
        requires { Fits (byte ∷ []) self.old }
        ensures { Appends (byte ∷ []) self.old self.new }
    {
        self.out[self.len] = byte;
        self.len += 1;
    }

    fn put_bytes(&mut self, bytes: &[u8])
        requires { Fits bytes.now self.old }
        ensures { Appends bytes.now self.old self.new }
    {
        for byte in bytes {
            self.put_byte(*byte);
        }
    }

    fn put_decimal(&mut self, number: u64)
        requires { Fits (decimal number) self.old }
        ensures { Appends (decimal number) self.old self.new }
    {
        if number < 10 {
            self.put_byte(b'0' + number as u8);
            return;
        }
        self.put_decimal(number / 10);
        self.put_byte(b'0' + (number % 10) as u8);
    }

    fn put_line_end(&mut self)
        requires { Fits (10 ∷ []) self.old }
        ensures { Appends (10 ∷ []) self.old self.new }
    {
        self.put_byte(b'\n');
    }

    fn put_clause(&mut self, n: u16, v: BddPartialValuation)
        requires { (n ≤ max_marks) × Fits (clause_line n (clause v.fixed v.values)) self.old }
        ensures { Appends (clause_line n (clause v.fixed v.values)) self.old self.new }
    {
        for mark in 0..n {
            self.put_byte(cell_char(v, BddVariable(mark)));
        }
        self.put_line_end();
    }

    fn put_count(&mut self, word: &[u8], number: u64)
        requires { Fits (count_line word.now number) self.old }
        ensures { Appends (count_line word.now number) self.old self.new }
    {
        self.put_bytes(word);
        self.put_decimal(number);
        self.put_line_end();
    }

    fn put_clauses(&mut self, n: u16, count: usize, list: &[u64])
        requires { (n ≤ max_marks) × (2 * count ≤ length list.now) × Fits (clause_lines n list.now count) self.old }
        ensures { Appends (clause_lines n list.now count) self.old self.new }
    {
        for i in 0..count {
            let fixed = list[2 * i];
            let values = list[2 * i + 1];
            self.put_clause(n, BddPartialValuation { fixed, values });
        }
    }

    fn put_list(&mut self, word: &[u8], n: u16, count: usize, list: &[u64])
        requires { (n ≤ max_marks) × (2 * count ≤ length list.now) × Fits (list_text word.now n count list.now) self.old }
        ensures { Appends (list_text word.now n count list.now) self.old self.new }
    {
        self.put_count(word, count as u64);
        self.put_clauses(n, count, list);
    }
}

fn cell_char(v: BddPartialValuation, mark: BddVariable) -> u8
    requires { mark.0 < 64 }
    ensures { result ≡ cell_char (cell (clause v.fixed v.values) mark.0) }
{
    if !valuation::has_bit(v.fixed, mark) {
        return b'-';
    }
    if valuation::has_bit(v.values, mark) {
        b'1'
    } else {
        b'0'
    }
}

// The text of a table and its two lists.
pub fn put_whole(
    out: &mut [u8],
    n: u16,
    count: usize,
    dnf_count: usize,
    dnf: &[u64],
    cnf_count: usize,
    cnf: &[u64],
) -> usize
    requires { (n ≤ max_marks) × (2 * dnf_count ≤ length dnf.now) × (2 * cnf_count ≤ length cnf.now) × (dnf_count ≤ max_clauses) × (cnf_count ≤ max_clauses) × (text_room ≤ length out.old) }
    ensures { Prints (whole_text n count dnf_count dnf.now cnf_count cnf.now) out.old out.new result }
{
    let mut text = Text {
        out: &mut *out,
        len: 0,
    };
    text.put_count(b"vars ", n as u64);
    text.put_count(b"nodes ", count as u64);
    text.put_list(b"dnf ", n, dnf_count, dnf);
    text.put_list(b"cnf ", n, cnf_count, cnf);
    let Text { len, .. } = text;
    out[len..].fill(0);
    len
}

// The line of a refusal.
pub fn put_refusal(out: &mut [u8], refusal: Refusal) -> usize
    requires { text_room ≤ length out.old }
    ensures { Prints (refused_text (number_of refusal.kind) refusal.place) out.old out.new result }
{
    let mut text = Text {
        out: &mut *out,
        len: 0,
    };
    text.put_bytes(b"refused ");
    text.put_decimal(u64::from(refusal.kind.number()));
    text.put_byte(b' ');
    text.put_decimal(refusal.place);
    text.put_line_end();
    let Text { len, .. } = text;
    out[len..].fill(0);
    len
}
