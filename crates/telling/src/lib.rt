// What a replay tells: the lines that differ, the calls of each entry, the totals. Inner.
#![tactic(auto)]

ghost use Rattle.std.specs.Prelude.{◌≤◌, length};

use std::fmt;
use std::fmt::Write;

// Text at the front of a lent buffer; what no longer fits is let go.
#[derive(Drop)]
pub struct Text<'a> {
    out: &'a mut [u8],
    len: usize,
    ghost fits: { len ≤ length out.now },
}

impl Write for Text<'_> {
    fn write_str(&mut self, s: &str) -> fmt::Result {
        for byte in s.as_bytes() {
            if self.len < self.out.len() {
                self.out[self.len] = *byte;
                self.len += 1;
            }
        }
        Ok(())
    }
}

// One more than the greatest number that is told whole.
const BILLION: u64 = 1000000000;

// A number; where it has more than nine digits, the last nine.
#[derive(Clone, Copy)]
struct Told(u64);

impl fmt::Display for Told {
    fn fmt<W: Write>(&self, f: &mut fmt::Formatter<W>) -> fmt::Result {
        let number = self.0;
        if number < BILLION {
            return write!(f, "{number}");
        }
        let last = number % BILLION;
        write!(f, "{last:09}")
    }
}

impl<'a> Text<'a> {
    pub fn new(out: &'a mut [u8]) -> Text<'a> {
        Text { out, len: 0 }
    }

    pub fn len(&self) -> usize {
        self.len
    }

    // The three let go what no longer fits, so there is no failure to answer.
    pub fn put_difference(&mut self, line: u64, entry: u64) {
        let _ = writeln!(self, "line {} differs: entry {}", Told(line), Told(entry));
    }

    pub fn put_counts(&mut self, counts: &[u64]) {
        for (entry, calls) in counts.iter().enumerate() {
            let _ = writeln!(self, "entry {entry}: {}", Told(*calls));
        }
    }

    pub fn put_total(&mut self, calls: u64, differ: u64) {
        let _ = writeln!(
            self,
            "{} calls replayed, {} differ",
            Told(calls),
            Told(differ)
        );
    }
}
