//! The beginnings of the left sides of a stage's staying rules.
ghost use Rattle.std.specs.Prelude.{◌≡◌, ◌<◌, [], ◌∷◌, MatchResult};
ghost use Rattle.std.specs.Str.{bytes_eq};
ghost use Rattle.question.specs.Rows.{held};
ghost use Rattle.question.specs.Rises.{among, kept, height};
ghost use Rattle.question.specs.Rises.{beginnings as beginnings_of, begun as begun_at};
ghost use Rattle.question.specs.Lists.{Becomes};
ghost use Rattle.question.specs.Rules.{rules_of, words_of};

use crate::row::Row;
use crate::rule::Rule;
use arrayvec::{ArrayVec, CapacityError};

/// A rise that weighs more is too heavy. So a climb that is not has at most this many bits.
pub(crate) const LIMIT: usize = 11;

/// Different words, of which a stage of a climb that is not too heavy has no more than there is room for.
pub(crate) type Words = ArrayVec<Row<4>, LIMIT>;

/// There are more words, or more bits, than a climb that is not too heavy has.
#[derive(Clone, Copy, Debug, Eq, PartialEq)]
pub(crate) struct TooHeavy;

impl<T: Drop> From<CapacityError<T>> for TooHeavy {
    fn from(_full: CapacityError<T>) -> TooHeavy {
        TooHeavy
    }
}

/// Whether the row holds the word.
// Kept beside the derived equality: callers have a slice, and a row of it would copy it first.
pub(crate) fn holds(row: &Row<4>, word: &[u8]) -> bool
    ensures { result ≡ bytes_eq word.now (held row.now) }
{
    word == row.word()
}

/// The beginnings of a left side that are neither empty nor the whole, the shortest first.
pub(crate) fn beginnings(left: &Row<4>) -> ArrayVec<Row<4>, 3>
    ensures { words_of result.items ≡ beginnings_of (held left.now) }
{
    let word = left.word();
    let mut found = ArrayVec::new();
    // Kept as a loop over lengths: a chain that collects may run out of room, and would answer a Result.
    for m in 1..word.len() {
        found.push(Row::of(&word[..m]));
    }
    found
}

/// Whether one of the rows holds the word.
fn has(words: &[Row<4>], word: &[u8]) -> bool
    ensures { result ≡ among word.now (words_of words.now) }
{
    words.iter().any(|other| holds(other, word))
}

/// Adds the word unless it is there.
fn keep(words: &mut Words, word: Row<4>) -> Result<(), TooHeavy>
    ensures { Becomes 11 (kept (words_of words.old.items) (held word ∷ [])) result (words_of words.new.items) }
{
    if !has(words.as_slice(), word.word()) {
        words.try_push(word)?;
    }
    Ok(())
}

/// Adds the beginnings of a left side that are not there yet.
fn keep_beginnings(words: &mut Words, left: &Row<4>) -> Result<(), TooHeavy>
    ensures { Becomes 11 (kept (words_of words.old.items) (beginnings_of (held left.now))) result (words_of words.new.items) }
{
    for word in beginnings(left).as_slice() {
        keep(words, *word)?;
    }
    Ok(())
}

/// The different beginnings of left sides of the stage's staying rules, if they are not too many.
pub(crate) fn begun(rules: &[Rule], stage: u8) -> Result<Words, TooHeavy>
    ensures { MatchResult result (λ words. words_of words.items ≡ begun_at (rules_of rules.now) stage) (λ _. 11 < height (rules_of rules.now) stage) }
{
    let mut words = Words::new();
    for rule in rules.iter().filter(|rule| rule.stays_at(stage)) {
        keep_beginnings(&mut words, &rule.left)?;
    }
    Ok(words)
}
