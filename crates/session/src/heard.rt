//! The words that a session has heard, as a pool.
ghost use Rattle.std.specs.List.{ContainsAt};
ghost use Rattle.model.specs.Symbols.{Symbols};
ghost use Rattle.session.specs.Sessions.{words_in};

use crate::limits::{HEARD_PLACES, WORD_LIMIT};
use crate::table::Table;
use model::pools::Pool;
use model::sieve::Sieve;
use question::row::Row;

/// The heard words, in the order in which they came.
pub(crate) type Heard = Table<Row<WORD_LIMIT>, HEARD_PLACES>;

impl Pool for Heard {
    ghost words = { λ h w. ContainsAt (words_in h) w × Symbols w };

    ghost symbols = { λ _ _ h. h.1 };

    fn holds(&self, word: &[u8]) -> bool {
        self.as_slice().iter().any(|row| row.word() == word)
    }

    fn meets(&self, sieve: Sieve<'_>) -> bool {
        self.as_slice().iter().any(|row| sieve.catches(row.word()))
    }
}
