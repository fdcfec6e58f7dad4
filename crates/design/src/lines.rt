//! Lines of a report.
ghost use Rattle.std.specs.Prelude.{◌≡◌, ◌<◌, ◌≤◌, ◌++◌, length, codes, decimal};
ghost use Rattle.design.specs.Lines.{newline, short_number, LineOut, stages_line, stop_line, no_line};

use arrayvec::ArrayString;
use itoa::Buffer;

/// A line buffer has at least this many bytes, and every line fits into so many.
pub const LINE_ROOM: usize = 64;

/// The line buffer is shorter than `LINE_ROOM`.
#[derive(Clone, Copy, PartialEq, Eq, Debug)]
pub struct LineShort;

/// The number of this refusal.
impl From<LineShort> for u8 {
    ghost from_gives = { λ _ n. n ≡ short_number };

    fn from(_: LineShort) -> u8 {
        9
    }
}

// Kept as a lent buffer, and the length as an answer: nothing is allocated, and what is past the line is promised to stay.
// Texts are pushed one by one, since `write!` does not promise that it succeeds.
/// Ends a line and writes it to the front of `buffer`; answers its length.
fn end(mut line: ArrayString<LINE_ROOM>, buffer: &mut [u8]) -> Result<usize, LineShort>
    requires { length line.bytes < 64 }
    ensures { LineOut (line.bytes ++ newline) buffer.old result buffer.new }
{
    if buffer.len() < LINE_ROOM {
        return Err(LineShort);
    }
    line.push_str("\n");
    buffer[..line.len()].copy_from_slice(line.as_str().as_bytes());
    Ok(line.len())
}

/// The line of a head: the number of stages.
pub fn stages_line(size: u16, buffer: &mut [u8]) -> Result<usize, LineShort>
    ensures { LineOut (stages_line size) buffer.old result buffer.new }
{
    let mut line = ArrayString::new();
    line.push_str("stages ");
    line.push_str(Buffer::new().format(size));
    end(line, buffer)
}

// Kept as a byte, here and below: any number may be told, and the enums of faults lie in two crates. Number, place and buffer
// are kept as three: a struct of them would be built at each call from the same three.
/// A word, the number of a refusal as a byte, and its place.
fn refusal_line(word: &str, number: u8, place: usize, buffer: &mut [u8]) -> Result<usize, LineShort>
    requires { length word.now ≤ 5 }
    ensures { LineOut (word.now ++ decimal number ++ codes " at " ++ decimal place ++ newline) buffer.old result buffer.new }
{
    let mut line = ArrayString::new();
    line.push_str(word);
    line.push_str(Buffer::new().format(number));
    line.push_str(" at ");
    line.push_str(Buffer::new().format(place));
    end(line, buffer)
}

/// The line of a refusal that ends the report.
pub fn stop_line(number: u8, place: usize, buffer: &mut [u8]) -> Result<usize, LineShort>
    ensures { LineOut (stop_line number place) buffer.old result buffer.new }
{
    refusal_line("stop ", number, place, buffer)
}

/// The line of a refusal after which the report goes on.
pub fn no_line(number: u8, place: usize, buffer: &mut [u8]) -> Result<usize, LineShort>
    ensures { LineOut (no_line number place) buffer.old result buffer.new }
{
    refusal_line("no ", number, place, buffer)
}
