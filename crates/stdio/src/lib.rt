// What the programs that the gate runs share over std: standard input, up to the room of a buffer, and the words that a program was started with.
#![tactic(auto)]

ghost use Rattle.std.specs.Prelude.{◌≡◌, ◌<◌, ◌≤◌, length, take, IfOk};
ghost use Rattle.std.specs.Io.{ReadsAtMost};
ghost use Rattle.std.specs.Io.KnownBytes.{Consumes, IsAtEnd};

use std::env::{Env, FillError};
use std::io::{self, Read};

// 65,536 zeros.
pub fn large_buffer() -> [u8; 65536]
    ensures { 65536 ≡ length result }
{
    [0; 65536]
}

// Reads until the buffer is full or the input ends, and gives how many bytes it put at the buffer's front: those that the reader gives next, and all of them
// where they do not fill it. With an empty buffer it reads nothing. A read that fails is an error.
// Stays: a read gives as much as it likes, so no index is counted; std's `read_exact` fails where the input ends first, and `read_to_end` fills a Vec.
pub fn read_full<R: Read>(reader: &mut R, buffer: &mut [u8]) -> io::Result<usize>
    ensures in_bounds { ReadsAtMost result buffer.new }
    ensures bytes { IfOk result (λ n. Consumes (R.remaining reader.old) (R.remaining reader.new) (take n buffer.new)) }
    ensures end { IfOk result (λ n. n < length buffer.new → IsAtEnd (R.remaining reader.new)) }
{
    let mut done = 0;
    while done < buffer.len() {
        let n = reader.read(&mut buffer[done..])?;
        if n == 0 {
            break;
        }
        done += n;
    }
    Ok(done)
}

// The same, and gives what it read.
pub fn read_into<'b, R: Read>(reader: &mut R, buffer: &'b mut [u8]) -> io::Result<&'b [u8]>
    ensures bytes { IfOk result (λ s. Consumes (R.remaining reader.old) (R.remaining reader.new) s.now) }
    ensures end { IfOk result (λ s. length s.now < length buffer.old → IsAtEnd (R.remaining reader.new)) }
{
    let n = read_full(reader, buffer)?;
    Ok(&buffer[..n])
}

// How many words the program was started with, its own name the first of them.
pub fn arg_count(rt: &impl Env) -> usize {
    (0..usize::MAX)
        .find(|i| matches!(rt.arg(*i, &mut []), Err(FillError::NotPresent)))
        .unwrap_or(usize::MAX)
}

// Puts word i at the buffer's front and gives its length, or 0 where there is none or the buffer does not hold it.
pub fn arg(rt: &impl Env, i: usize, buffer: &mut [u8]) -> usize
    ensures in_bounds { result ≤ length buffer.new }
    ensures length { length buffer.new ≡ length buffer.old }
{
    rt.arg(i, buffer).unwrap_or(0)
}

#[cfg(test)]
mod tests {
    use super::*;
    use std::test::Fail;

    // Gives a byte a turn, and fails once there is none.
    #[derive(Drop)]
    struct Failing<'a>(&'a [u8]);

    impl Read for Failing<'_> {
        fn read(&mut self, buffer: &mut [u8]) -> io::Result<usize> {
            if self.0.is_empty() {
                return Err(io::Error::from(io::ErrorKind::BrokenPipe));
            }
            let n = buffer.len().min(1);
            self.0.read(&mut buffer[..n])
        }
    }

    #[test]
    fn stops_at_the_end_and_where_it_is_full(rt: HostRuntime) -> Result<(), Fail> {
        let mut reader = b"sheet".as_slice();
        let mut three = [0u8; 3];
        assert_eq!(rt; read_full(&mut reader, &mut three)?, 3);
        assert_eq!(rt; three.as_slice(), b"she".as_slice());
        assert_eq!(rt; read_full(&mut reader, &mut three)?, 2);
        assert_eq!(rt; three.as_slice(), b"ete".as_slice());
        assert_eq!(rt; read_full(&mut reader, &mut three)?, 0);
        Ok(())
    }

    #[test]
    fn gives_what_it_read(rt: HostRuntime) -> Result<(), Fail> {
        let mut reader = b"sheet".as_slice();
        let mut three = [0u8; 3];
        assert_eq!(rt; read_into(&mut reader, &mut three)?, b"she".as_slice());
        assert_eq!(rt; read_into(&mut reader, &mut three)?, b"et".as_slice());
        Ok(())
    }

    #[test]
    fn a_failed_read_is_an_error(rt: HostRuntime) -> Result<(), Fail> {
        let mut reader = Failing(b"sheet".as_slice());
        let mut three = [0u8; 3];
        assert_eq!(rt; read_full(&mut reader, &mut three)?, 3);
        assert!(rt; read_full(&mut reader, &mut three).is_err());
        Ok(())
    }
}
