//! Books: words written out in bytes.
ghost use Rattle.std.specs.Prelude.{◌≡◌, ℕ, length, Decides, MatchOption};
ghost use Rattle.std.specs.Iterator.{at_most};
ghost use Rattle.model.specs.Books.{Opens, Spent, Entry, BookWord};
ghost use Rattle.model.specs.Sieves.{Caught};
ghost use Rattle.model.specs.Symbols.{Symbols};

use crate::pools::Pool;
use crate::sieve::Sieve;
use crate::symbols::all_symbols;

/// Entries one after another, each a length byte and that many symbols.
///
/// An entry that the end cuts is no entry, and one with a byte above 15 is no word.
#[derive(Clone, Copy, PartialEq, Eq, Debug)]
pub struct Book<'a>(pub &'a [u8]);

/// Whether `entry` is a word that ends at a wanted mark.
fn is_caught(sieve: Sieve<'_>, entry: &[u8]) -> bool
    ensures { Decides result (Symbols entry.now × Caught sieve.entry entry.now) }
{
    all_symbols(entry) && sieve.catches(entry)
}

/// The entries that are left of a book.
#[derive(Clone, Copy, Drop)]
struct Entries<'a>(&'a [u8]);

impl<'a> Iterator for Entries<'a> {
    type Item = &'a [u8];

    ghost next_gives = { λ s r t. MatchOption r (Spent s.0.now) (λ e. Opens s.0.now e.now t.0.now) };

    ghost remaining = { λ s. at_most (length s.0.now) };

    fn next(&mut self) -> Option<&'a [u8]> {
        let (len, tail) = self.0.split_first()?;
        let (entry, rest) = tail.split_at_checked(usize::from(*len))?;
        self.0 = rest;
        Some(entry)
    }
}

impl<'a> Book<'a> {
    /// Its entries, the first one first.
    fn entries(&self) -> Entries<'a>
        ensures { result.0.now ≡ self.now.0.now }
    {
        Entries(self.0)
    }

    /// Whether `word` is one of them.
    fn has_entry(&self, word: &[u8]) -> bool
        ensures { Decides result (Entry word.now self.now.0.now) }
    {
        self.entries().any(|entry| entry == word)
    }
}

impl<'a> Pool for Book<'a> {
    ghost words = { λ b. BookWord b.0.now };

    ghost symbols = { λ _ _ h. h.1 };

    fn holds(&self, word: &[u8]) -> bool {
        self.has_entry(word) && all_symbols(word)
    }

    fn meets(&self, sieve: Sieve<'_>) -> bool {
        self.entries().any(|entry| is_caught(sieve, entry))
    }
}
