//! Pools: fixed sets of words, by two questions.
ghost use Rattle.std.specs.Prelude.{ℕ, ◌⊎◌, List, Decides};
ghost use Rattle.std.specs.Option.{IsSomeAnd};
ghost use Rattle.std.proofs.Common.{⊎_elim};
ghost use Rattle.model.specs.Pools.{option_symbols};
ghost use Rattle.model.specs.Sieves.{Meets};
ghost use Rattle.model.specs.Symbols.{Symbols};

use crate::sieve::Sieve;

/// A fixed set of words, each a list of symbols, the outermost first.
pub trait Pool {
    ghost words: { Self → List ℕ → Type 0 };

    /// Whether `word` is in the set.
    fn holds(&self, word: &[u8]) -> bool
        ensures { Decides result (words self.now word.now) };

    /// Whether some word of the set ends at a wanted mark of the sieve.
    fn meets(&self, sieve: Sieve<'_>) -> bool
        ensures { Decides result (Meets (words self.now) sieve.entry) };

    // words are lists of symbols
    ghost symbols: { (p : Self) (w : List ℕ) → words p w → Symbols w };
}

/// The words of both pools.
#[derive(Clone, Copy, PartialEq, Eq, Debug)]
pub struct Either<A, B>(pub A, pub B);

impl<A: Pool, B: Pool> Pool for Either<A, B> {
    ghost words = { λ p w. A.Pool.words p.0 w ⊎ B.Pool.words p.1 w };

    ghost symbols = { λ p w. ⊎_elim (A.Pool.symbols p.0 w) (B.Pool.symbols p.1 w) };

    fn holds(&self, word: &[u8]) -> bool {
        self.0.holds(word) || self.1.holds(word)
    }

    fn meets(&self, sieve: Sieve<'_>) -> bool {
        self.0.meets(sieve) || self.1.meets(sieve)
    }
}

/// The words of a pool that is lent.
impl<'a, P: Pool> Pool for &'a P {
    ghost words = { λ p. P.Pool.words p.now };

    ghost symbols = { λ p. P.Pool.symbols p.now };

    fn holds(&self, word: &[u8]) -> bool {
        (**self).holds(word)
    }

    fn meets(&self, sieve: Sieve<'_>) -> bool {
        (**self).meets(sieve)
    }
}

/// The words of a pool that may be missing: without it there are none.
impl<P: Pool> Pool for Option<P> {
    ghost words = { λ o w. IsSomeAnd o (λ p. P.Pool.words p w) };

    ghost symbols = { λ o w. option_symbols P.Pool.words P.Pool.symbols o w };

    fn holds(&self, word: &[u8]) -> bool {
        self.as_ref().is_some_and(|pool| pool.holds(word))
    }

    fn meets(&self, sieve: Sieve<'_>) -> bool {
        // Kept as a match: tried with `is_some_and`, and the proof did not close.
        match self {
            Some(pool) => pool.meets(sieve),
            None => false,
        }
    }
}
