// Standard input as the programs read it: a buffer is filled as far as the input goes. Inner.
#![tactic(auto)]

ghost use Rattle.std.specs.Prelude.{◌≡◌, ◌<◌, ◌≤◌, ℕ, length, take, IfOk, OnErr};
ghost use Rattle.std.specs.Io.KnownBytes.{Consumes, IsAtEnd};

use std::io;
use std::io::{ErrorKind, Read};

// A buffer of N zeros. A caller's proof knows its length, and need not look into so many of them.
pub fn buffer<const N: usize>() -> [u8; N]
    ensures { length result ≡ N }
{
    [0; N]
}

// Reads until the buffer is full or the input ends, and answers how many bytes at the buffer's front are the input's. A read that a signal cuts short is tried
// again; any other error is handed on. After 2^64 − 1 reads in all it answers that it was interrupted, since a loop has to end.
pub fn read_full<R: Read>(input: &mut R, buf: &mut [u8]) -> io::Result<usize>
    ensures fits { IfOk result (λ n. n ≤ length buf.new) }
    ensures bytes { IfOk result (λ n. Consumes (R.remaining input.old) (R.remaining input.new) (take n buf.new)) }
    ensures end { IfOk result (λ n. n < length buf.new → IsAtEnd (R.remaining input.new)) }
    ensures failed { OnErr result ((n : ℕ) × (n ≤ length buf.new) × Consumes (R.remaining input.old) (R.remaining input.new) (take n buf.new)) }
{
    let mut filled: usize = 0;
    for _ in 0..u64::MAX {
        if filled == buf.len() {
            return Ok(filled);
        }
        match input.read(&mut buf[filled..]) {
            Ok(0) => return Ok(filled),
            Ok(n) => filled += n,
            Err(error) => {
                if error.kind() != ErrorKind::Interrupted {
                    return Err(error);
                }
            }
        }
    }
    Err(io::Error::from(ErrorKind::Interrupted))
}

#[cfg(test)]
mod tests {
    use super::read_full;
    use std::io;
    use std::io::{ErrorKind, Read};

    // Gives its bytes two at a time, with a signal in between, and then ends or fails.
    #[derive(Drop)]
    struct Pieces<'a> {
        bytes: &'a [u8],
        is_cut: bool,
        fails: bool,
    }

    impl Read for Pieces<'_> {
        fn read(&mut self, buf: &mut [u8]) -> io::Result<usize> {
            self.is_cut = !self.is_cut;
            if self.is_cut {
                return Err(io::Error::from(ErrorKind::Interrupted));
            }
            if self.fails && self.bytes.is_empty() {
                return Err(io::Error::from(ErrorKind::WouldBlock));
            }
            let n = buf.len().min(2);
            self.bytes.read(&mut buf[..n])
        }
    }

    fn abcde(fails: bool) -> Pieces<'static> {
        Pieces {
            bytes: b"abcde",
            is_cut: false,
            fails,
        }
    }

    #[test]
    fn an_input_is_read_to_its_end(rt: HostRuntime) -> io::Result<()> {
        let mut buf = [0u8; 8];
        let n = read_full(&mut abcde(false), &mut buf)?;
        assert_eq!(rt; n, 5);
        assert_eq!(rt; &buf, b"abcde\0\0\0");
        Ok(())
    }

    #[test]
    fn a_buffer_is_filled_to_its_end(rt: HostRuntime) -> io::Result<()> {
        let mut buf = [0u8; 3];
        let n = read_full(&mut abcde(true), &mut buf)?;
        assert_eq!(rt; n, 3);
        assert_eq!(rt; &buf, b"abc");
        Ok(())
    }

    #[test]
    fn an_error_in_mid_stream_is_handed_on(rt: HostRuntime) {
        let mut buf = [0u8; 8];
        match read_full(&mut abcde(true), &mut buf) {
            Ok(_) => assert!(rt; false),
            Err(error) => assert!(rt; error.kind() == ErrorKind::WouldBlock),
        }
        assert_eq!(rt; &buf, b"abcde\0\0\0");
    }
}
