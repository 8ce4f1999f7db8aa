// The replay as a function: lines of numbers in, what differs and how many calls there were out. Inner.
// A line's numbers are, in this order: the entry; four numbers of the call; count, length and words of a first table, of a second one and of a list;
// the lengths of the three lent buffers, nodes, clauses and work; what is wanted of the reply and of these three.
#![tactic(auto)]

ghost use Rattle.std.specs.Prelude.{◌≤◌, length};

use calls::{Call, Counted, Lent};
use lines::{LINE_END, Numbers, Word};
use telling::Text;

// A count, and a slice to the front of a buffer.
fn take_counted<'a, W: Word>(numbers: &mut Numbers, buffer: &'a mut [W]) -> Counted<'a, W> {
    let count = numbers.take() as usize;
    let length = numbers.take_slice(buffer);
    Counted {
        count,
        words: &buffer[..length],
    }
}

// The buffers are locals of the longest lengths of a line: there is no heap.
// The call answers as the line wants, which goes on with the lent buffers' lengths: rubbish in them all, the call, and the comparison.
fn call_agrees(call: Call, mut numbers: Numbers) -> bool {
    let mut reply = [0u64; 64];
    let mut nodes = [0u32; 384];
    let mut clauses = [0u64; 128];
    let mut work = [0u32; 8192];
    let nodes = &mut nodes[..lines::at_most(numbers.take(), 384)];
    let clauses = &mut clauses[..lines::at_most(numbers.take(), 128)];
    let work = &mut work[..lines::at_most(numbers.take(), 8192)];
    lines::lend(&mut reply);
    lines::lend(nodes);
    lines::lend(clauses);
    lines::lend(work);
    let lent = Lent {
        nodes: &mut *nodes,
        clauses: &mut *clauses,
        work: &mut *work,
        reply: &mut reply,
    };
    calls::make(call, lent) == 1
        && numbers.agrees(&reply)
        && numbers.agrees(nodes)
        && numbers.agrees(clauses)
        && numbers.agrees(work)
}

// The line's call answers as the line wants.
fn line_agrees(line: &[u64]) -> bool {
    let mut left = [0u32; 96];
    let mut right = [0u32; 96];
    let mut list = [0u64; 512];
    let mut numbers = Numbers::new(line);
    let entry = numbers.take();
    let first = numbers.take();
    let second = numbers.take();
    let third = numbers.take();
    let fourth = numbers.take();
    let call = Call {
        entry,
        numbers: [first, second, third, fourth],
        left: take_counted(&mut numbers, &mut left),
        right: take_counted(&mut numbers, &mut right),
        list: take_counted(&mut numbers, &mut list),
    };
    call_agrees(call, numbers)
}

// Each line that differs is told, then the calls of each entry and the totals.
fn tell(bytes: &[u8], text: &mut Text) {
    let mut line = [0u64; 1024];
    let mut counts = [0u64; 36];
    let mut calls: u64 = 0;
    let mut differ: u64 = 0;
    for row in bytes.split_inclusive(|byte| *byte == LINE_END) {
        lines::read(row, &mut line);
        let entry = line[0];
        calls = calls.wrapping_add(1);
        if entry < 36 {
            counts[entry as usize] = counts[entry as usize].wrapping_add(1);
        }
        if !line_agrees(&line) {
            differ = differ.wrapping_add(1);
            text.put_difference(calls, entry);
        }
    }
    text.put_counts(&counts);
    text.put_total(calls, differ);
}

// Replays every line. How much of the output is written: what does not fit is let go.
pub fn replay(bytes: &[u8], out: &mut [u8]) -> usize
    ensures { result ≤ length out.new }
{
    let room = out.len();
    let mut text = Text::new(out);
    tell(bytes, &mut text);
    text.len().min(room)
}
