// Lines of numbers for the replay: read from bytes, handed to buffers, compared with what a call left. Inner.
// Nothing is refused: past a line's end a number is 0, past a buffer's end nothing is written.
#![tactic(auto)]

ghost use Rattle.std.specs.Prelude.{◌≤◌, length};

pub const LINE_END: u8 = 10;

// A tenth of the greatest number.
const TENTH: u64 = 1844674407370955161;

// A word of a buffer, whatever its width.
pub trait Word: Copy {
    // The number, or the greatest word where it is more.
    fn of(number: u64) -> Self;

    fn number(self) -> u64;
}

impl Word for u8 {
    fn of(number: u64) -> u8 {
        u8::try_from(number).unwrap_or(u8::MAX)
    }

    fn number(self) -> u64 {
        u64::from(self)
    }
}

impl Word for u16 {
    fn of(number: u64) -> u16 {
        u16::try_from(number).unwrap_or(u16::MAX)
    }

    fn number(self) -> u64 {
        u64::from(self)
    }
}

impl Word for u32 {
    fn of(number: u64) -> u32 {
        u32::try_from(number).unwrap_or(u32::MAX)
    }

    fn number(self) -> u64 {
        u64::from(self)
    }
}

impl Word for u64 {
    fn of(number: u64) -> u64 {
        number
    }

    fn number(self) -> u64 {
        self
    }
}

// The number, or the limit where it is more.
pub fn at_most(number: u64, limit: usize) -> usize
    ensures { result ≤ limit }
{
    (number as usize).min(limit)
}

// The number at a place of a line, 0 behind its end.
pub fn number_at(numbers: &[u64], i: usize) -> u64 {
    numbers.get(i).copied().unwrap_or(0)
}

// The numbers at the front of a buffer, zeros behind them.
pub fn fill<W: Word>(numbers: &[u64], buffer: &mut [W]) {
    for (i, word) in buffer.iter_mut().enumerate() {
        *word = W::of(number_at(numbers, i));
    }
}

// What a lent buffer holds before the call: no zero, and no word twice within 4,096.
fn rubbish(i: usize) -> u64 {
    2779000000 + (i % 4096) as u64
}

pub fn lend<W: Word>(buffer: &mut [W]) {
    for (i, word) in buffer.iter_mut().enumerate() {
        *word = W::of(rubbish(i));
    }
}

fn is_as_lent<W: Word>(buffer: &[W]) -> bool {
    for (i, word) in buffer.iter().enumerate() {
        if word.number() != rubbish(i) {
            return false;
        }
    }
    true
}

// The words are the numbers, with zeros behind them.
fn holds<W: Word>(buffer: &[W], numbers: &[u64]) -> bool {
    for (i, word) in buffer.iter().enumerate() {
        if word.number() != number_at(numbers, i) {
            return false;
        }
    }
    true
}

// A number with one more digit.
fn with_digit(number: u64, byte: u8) -> u64 {
    if byte < b'0' || number > TENTH {
        return 0;
    }
    (number * 10).wrapping_add(u64::from(byte - b'0'))
}

// The numbers of a row of digits and spaces, zeros behind them.
pub fn read(row: &[u8], line: &mut [u64]) {
    line.fill(0);
    let digits = row.strip_suffix(&[LINE_END]).unwrap_or(row);
    for (number, word) in line.iter_mut().zip(digits.split(|byte| *byte == b' ')) {
        *number = word
            .iter()
            .fold(0, |so_far, byte| with_digit(so_far, *byte));
    }
}

// The numbers of a line that are still to be taken.
#[derive(Clone, Copy)]
pub struct Numbers<'a> {
    rest: &'a [u64],
}

impl<'a> Numbers<'a> {
    pub fn new(line: &'a [u64]) -> Numbers<'a> {
        Numbers { rest: line }
    }

    pub fn take(&mut self) -> u64 {
        match self.rest.split_first() {
            None => 0,
            Some((first, others)) => {
                self.rest = others;
                *first
            }
        }
    }

    // So many numbers, or as many as there are.
    fn take_part(&mut self, count: u64) -> &'a [u64] {
        let (part, others) = self.rest.split_at(at_most(count, self.rest.len()));
        self.rest = others;
        part
    }

    // A slice, whose length stands before its words, to the front of a buffer; how many of the buffer's words a call gets.
    pub fn take_slice<W: Word>(&mut self, buffer: &mut [W]) -> usize
        ensures { result ≤ length buffer.new }
    {
        let count = self.take();
        fill(self.take_part(count), buffer);
        at_most(count, buffer.len())
    }

    // A lent buffer is as the line wants it: there stands 0 where the call is to leave it alone, or 1 more than the words that follow; behind them zeros.
    pub fn agrees<W: Word>(&mut self, buffer: &[W]) -> bool {
        let fate = self.take();
        if fate == 0 {
            return is_as_lent(buffer);
        }
        let words = self.take_part(fate - 1);
        fate - 1 <= buffer.len() as u64 && holds(buffer, words)
    }
}
