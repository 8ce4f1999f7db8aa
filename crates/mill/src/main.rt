// The program: a sheet of clauses from standard input; its table's size and both its lists, or one refusal, to standard output.
#![tactic(auto)]

use std::io;
use std::io::Write;

fn main(rt: HostRuntime) -> io::Result<()> {
    let mut bytes = [0u8; 65537];
    let read = input::read_full(&mut rt.stdin(), &mut bytes)?;
    let mut out = [0u8; 131072];
    let written = milling::mill(&bytes[..read], &mut out);
    rt.stdout().write_all(&out[..written])
}
