//! Reads a design file from standard input, and writes the report on it to standard output.
#![tactic(auto)]

ghost use Rattle.std.specs.Prelude.{◌≤◌, length, IfOk};

use design::head::FILE_LIMIT;
use design::report::report;
use std::io;
use std::io::{Read, Write};

/// One byte more than a file may have, so that a file that is too long shows.
const ROOM: usize = FILE_LIMIT + 1;

// Kept as a loop over a buffer of fixed size: reading to the end into a list asks for memory and reads in small pieces, which cuts
// a design that comes as one message.
/// Reads until the buffer is full or the input ends, and answers how many bytes came.
fn fill<R: Read>(input: &mut R, buffer: &mut [u8]) -> io::Result<usize>
    ensures { IfOk result (λ n. n ≤ length buffer.new) }
{
    let mut len = 0;
    while len < buffer.len() {
        let n = input.read(&mut buffer[len..])?;
        if n == 0 {
            break;
        }
        len += n;
    }
    Ok(len)
}

fn main(rt: HostRuntime) -> io::Result<()> {
    let mut buffer = [0; ROOM];
    let len = fill(&mut rt.stdin(), &mut buffer)?;
    let out = report(rt.alloc(), &buffer[0..len])?;
    rt.stdout().write_all(&out)
}
