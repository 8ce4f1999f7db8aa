// The program: calls with the answers that are wanted of them from standard input, one to a line; what differs and how many there were to standard output.
// Its stdin is what tests/differ's `sample` prints: the answers of the Rust, and the refusals read from the specification.
#![tactic(auto)]

use std::io;
use std::io::Write;

fn main(rt: HostRuntime) -> io::Result<()> {
    let mut bytes = input::buffer::<524288>();
    let read = input::read_full(&mut rt.stdin(), &mut bytes)?;
    let mut out = [0u8; 65536];
    let written = replaying::replay(&bytes[..read], &mut out);
    rt.stdout().write_all(&out[..written])
}
