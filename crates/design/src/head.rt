//! The head of a design file: its stages, its book and its known keys.
ghost use Rattle.std.specs.Prelude.{◌<◌, length, Decides};
ghost use Rattle.design.specs.Heads.{FirstJudged, StagesRead, BookRead, KeysRead, HeadRead};
ghost use Rattle.design.specs.HeadLaws.{OneAnswer};

use crate::fault::{Fault, Refusal};
use crate::records::{Reader, Record};
use crate::tags::Tag;
use model::book::Book;
use model::keys::KnownKeys;
use model::orders::{Flags, Ladder, Pair};
use model::pools::Either;
use model::symbols::SymbolSet;

/// A file has at most this many bytes.
pub const FILE_LIMIT: usize = 16_384;

/// What a head sets up, and the file from there on.
#[derive(Clone, Copy, PartialEq, Eq, Debug)]
pub struct Head<'a> {
    pub order: Pair<Ladder, Flags>,
    pub pool: Either<Book<'a>, Option<KnownKeys>>,
    pub rest: Reader<'a>,
}

/// Whether the file is longer than a file may be.
fn is_too_long(file: &[u8]) -> bool
    ensures { Decides result (16384 < length file.now) }
{
    file.len() > FILE_LIMIT
}

/// Whether a file may begin with a record of this tag: only with stages.
fn judge_first(tag: u8, place: usize) -> Result<(), Refusal>
    ensures { FirstJudged tag place result }
{
    match Tag::try_from(tag) {
        Ok(Tag::Stages) => Ok(()),
        Ok(_) => Err(Fault::Misplaced.at(place)),
        Err(_) => Err(Fault::UnknownTag.at(place)),
    }
}

/// The order of the stages, by the first record of a file.
fn stages(reader: &mut Reader<'_>) -> Result<Pair<Ladder, Flags>, Refusal>
    ensures { StagesRead reader.old result reader.new }
{
    let Record { tag, value, place } = reader.next()?.ok_or(Fault::Cut.at(0))?;
    judge_first(tag, place)?;
    let [ladder, flags] = value else {
        return Err(Fault::WrongLength.at(place));
    };
    Ok(Pair(Ladder(*ladder), Flags(*flags)))
}

/// The book where one comes next, or else the empty one.
fn book<'a>(reader: &mut Reader<'a>) -> Result<&'a [u8], Refusal>
    ensures { BookRead reader.old result reader.new }
{
    // Kept as a match: tried with `map_or`, and the proof did not close.
    match reader.next_if(u8::from(Tag::Book))? {
        Some(record) => Ok(record.value),
        None => Ok(&[]),
    }
}

/// The known keys where they come next, or else none.
fn known_keys(reader: &mut Reader<'_>) -> Result<Option<KnownKeys>, Refusal>
    ensures { KeysRead reader.old result reader.new }
{
    let Some(Record { value, place, .. }) = reader.next_if(u8::from(Tag::Keys))? else {
        return Ok(None);
    };
    let [high, low, end] = value else {
        return Err(Fault::WrongLength.at(place));
    };
    Ok(Some(KnownKeys {
        set: SymbolSet(u16::from_be_bytes([*high, *low])),
        end: *end,
    }))
}

impl<'a> Head<'a> {
    /// Reads the head of a file.
    pub fn read(file: &'a [u8]) -> Result<Head<'a>, Refusal>
        ensures { HeadRead file.now result × OneAnswer file.now result }
    {
        if is_too_long(file) {
            return Err(Fault::FileTooLong.at(0));
        }
        let mut reader = Reader::new(file);
        let order = stages(&mut reader)?;
        let book = book(&mut reader)?;
        let keys = known_keys(&mut reader)?;
        Ok(Head {
            order,
            pool: Either(Book(book), keys),
            rest: reader,
        })
    }
}
