// Bytes of an input, taken in order. An input may come in pieces, so one read need not give what there is room for.
#![tactic(auto)]

ghost use Rattle.std.specs.Io.KnownBytes.{Consumes, IsAtEnd};
ghost use Rattle.std.specs.Io.{ReadsAtMost};
ghost use Rattle.std.specs.Prelude.{IfOk, length, take, ◌<◌};

use std::io;
use std::io::Read;

// Fills the buffer from the input up to the input's end, and says how many bytes it took: the input's next ones, in
// order, and fewer than there is room for only at its end. A read that fails ends it with the error.
// A loop of its own: the library's `read_exact` does not say how many bytes there were before the end.
pub fn read_full<R: Read>(input: &mut R, buf: &mut [u8]) -> io::Result<usize>
    ensures within { ReadsAtMost result buf.new }
    ensures bytes { IfOk result (λ n. Consumes (R.remaining input.old) (R.remaining input.new) (take n buf.new)) }
    ensures end { IfOk result (λ n. n < length buf.new → IsAtEnd (R.remaining input.new)) }
{
    let mut done = 0;
    while done < buf.len() {
        let n = input.read(&mut buf[done..])?;
        if n == 0 {
            return Ok(done);
        }
        done += n;
    }
    Ok(done)
}

#[cfg(test)]
mod tests {
    use super::*;

    // Gives one byte, and fails from then on.
    #[derive(Drop)]
    struct Broken {
        gave: bool,
    }

    impl Read for Broken {
        fn read(&mut self, buf: &mut [u8]) -> io::Result<usize> {
            if self.gave || buf.is_empty() {
                return Err(io::Error::from(io::ErrorKind::Other));
            }
            self.gave = true;
            buf[0] = 1;
            Ok(1)
        }
    }

    #[test]
    fn takes_pieces_in_order_past_the_buffers_edge(rt: HostRuntime) -> io::Result<()> {
        let first: &[u8] = &[1, 2, 3];
        let second: &[u8] = &[4, 5];
        let mut input = first.chain(second);
        let mut buf = [0u8; 4];
        assert_eq!(rt; read_full(&mut input, &mut buf)?, 4);
        assert_eq!(rt; buf, [1, 2, 3, 4]);
        assert_eq!(rt; read_full(&mut input, &mut buf)?, 1);
        assert_eq!(rt; buf[0], 5);
        assert_eq!(rt; read_full(&mut input, &mut buf)?, 0);
        Ok(())
    }

    #[test]
    fn a_read_that_fails_midway_is_told(rt: HostRuntime) {
        let mut buf = [0u8; 4];
        assert!(rt; read_full(&mut Broken { gave: false }, &mut buf).is_err());
    }
}
