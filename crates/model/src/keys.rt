//! Known keys: symbols of a set, round an end symbol.
ghost use Rattle.std.specs.Prelude.{◌≡◌, ◌<◌, Decides};
ghost use Rattle.model.specs.Keys.{KeyWord, key_symbols};

use crate::closing::lead_to_wanted;
use crate::pools::Pool;
use crate::sieve::Sieve;
use crate::symbols::SymbolSet;

/// The words of zero or more symbols of `set` followed by the symbol `end`. An end above 15 gives no words.
#[derive(Clone, Copy, PartialEq, Eq, Debug)]
pub struct KnownKeys {
    pub set: SymbolSet,
    pub end: u8,
}

impl KnownKeys {
    /// Whether words end with `symbol`.
    fn end_with(&self, symbol: u8) -> bool
        ensures { Decides result ((self.now.end < 16) × (symbol ≡ self.now.end)) }
    {
        self.end < 16 && symbol == self.end
    }
}

impl Pool for KnownKeys {
    ghost words = { λ k. KeyWord k.set.0 k.end };

    ghost symbols = { λ k. key_symbols k.set.0 k.end };

    fn holds(&self, word: &[u8]) -> bool {
        let [keys @ .., last] = word else {
            return false;
        };
        self.end_with(*last) && self.set.has_all(keys)
    }

    fn meets(&self, sieve: Sieve<'_>) -> bool {
        if self.end > 15 {
            return false;
        }
        let wanted = lead_to_wanted(sieve, self.set);
        let closed = Sieve {
            wanted: &wanted,
            ..sieve
        };
        closed.catches(&[self.end])
    }
}
