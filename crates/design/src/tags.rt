//! The tag of each kind of record.
ghost use Rattle.std.specs.Prelude.{◌≡◌};
ghost use Rattle.design.specs.Tags.{byte_of, Decodes};

/// A kind of record, numbered by its tag.
#[derive(Clone, Copy, PartialEq, Eq, Debug)]
pub enum Tag {
    /// A ladder's size and a number of flags: the order of the stages.
    Stages = 1,
    /// The words of a book.
    Book = 2,
    /// A set of known keys and an end symbol.
    Keys = 3,
    /// A rule to admit.
    Rule = 4,
    /// A rule number and a word to fire it on.
    Fire = 5,
    /// A goal to ask for.
    Ask = 6,
    /// A word to hear.
    Hear = 7,
}

/// A byte that is no kind's tag.
#[derive(Clone, Copy, PartialEq, Eq, Debug)]
pub struct UnknownTag(pub u8);

impl From<Tag> for u8 {
    ghost from_gives = { λ tag byte. byte ≡ byte_of tag };

    fn from(tag: Tag) -> u8 {
        tag as u8
    }
}

impl TryFrom<u8> for Tag {
    type Error = UnknownTag;

    ghost try_from_gives = { Decodes };

    fn try_from(byte: u8) -> Result<Tag, UnknownTag> {
        match byte {
            1 => Ok(Tag::Stages),
            2 => Ok(Tag::Book),
            3 => Ok(Tag::Keys),
            4 => Ok(Tag::Rule),
            5 => Ok(Tag::Fire),
            6 => Ok(Tag::Ask),
            7 => Ok(Tag::Hear),
            _ => Err(UnknownTag(byte)),
        }
    }
}
