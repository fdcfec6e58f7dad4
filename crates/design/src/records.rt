//! Records: a tag, a length and a value, one after another.
ghost use Rattle.std.specs.Prelude.{◌≡◌, Decides};
ghost use Rattle.design.specs.Reading.{unread, Next, NextIf};
ghost use Rattle.design.specs.Records.{Starts};

use crate::fault::{Fault, Refusal};

/// A record: its tag, its value, which is a part of the file, and the byte at which it starts.
#[derive(Clone, Copy, PartialEq, Eq, Debug)]
pub struct Record<'a> {
    // Kept as a byte: any byte may stand here in a file.
    pub tag: u8,
    pub value: &'a [u8],
    pub place: usize,
}

/// A file, and how far it is read.
// Kept as a file and a place: a record's place is part of what the reader hands out, and the rest is file[place..].
#[derive(Clone, Copy, PartialEq, Eq, Debug)]
pub struct Reader<'a> {
    file: &'a [u8],
    place: usize,
}

impl<'a> Reader<'a> {
    /// A reader at the file's first byte.
    pub fn new(file: &'a [u8]) -> Reader<'a>
        ensures { (unread result ≡ file.now) × (result.place ≡ 0) }
    {
        Reader { file, place: 0 }
    }

    /// The next record, or `None` where no byte is left. A record that is cut is refused, and the reader stays.
    pub fn next(&mut self) -> Result<Option<Record<'a>>, Refusal>
        ensures { Next self.old result self.new }
    {
        let place = self.place;
        if place >= self.file.len() {
            return Ok(None);
        }
        let cut = Fault::Cut.at(place);
        let ([tag, high, low], tail) = self.file[place..].split_first_chunk::<3>().ok_or(cut)?;
        let len = usize::from(u16::from_be_bytes([*high, *low]));
        let value = tail.get(..len).ok_or(cut)?;
        self.place += 3 + len;
        Ok(Some(Record {
            tag: *tag,
            value,
            place,
        }))
    }

    /// Whether the next byte is `tag`.
    fn starts_with(&self, tag: u8) -> bool
        ensures { Decides result (Starts tag (unread self.now)) }
    {
        self.file.get(self.place) == Some(&tag)
    }

    /// The next record where the next byte is `tag`; else `None`, and the reader stays.
    // Kept as a byte, here and above: a kind alone would ask more of callers.
    pub fn next_if(&mut self, tag: u8) -> Result<Option<Record<'a>>, Refusal>
        ensures { NextIf tag self.old result self.new }
    {
        if !self.starts_with(tag) {
            return Ok(None);
        }
        self.next()
    }
}
