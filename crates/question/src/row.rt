//! A word in a place of fixed size.
ghost use Rattle.std.specs.Prelude.{◌≡◌, ℕ, ◌+◌, ◌-◌, ◌<◌, ◌≤◌, ◌++◌, length, drop, replicate, slice_index};
ghost use Rattle.model.specs.Symbols.{Symbols};

use model::symbols::all_symbols;

/// Why words make no row and no rule.
#[derive(Clone, Copy, Debug, Eq, PartialEq)]
pub enum WordError {
    /// There is no room for so many bytes.
    TooLong,
    /// There is room, but some byte is no symbol.
    SymbolTooHigh,
}

/// A word of at most `N` symbols. Places past its end hold 0.
// Kept as an array and a length: words are copied, and the kit's ArrayVec is not `Copy` and leaves open what is past the end.
#[derive(Clone, Copy, Debug, Eq, PartialEq)]
pub struct Row<const N: usize> {
    len: u8,
    symbols: [u8; N],
    ghost short: { len ≤ N },
    ghost wide: { length symbols ≡ N },
    ghost below: { (i : ℕ) → slice_index symbols i < 16 },
    ghost blank: { drop len symbols ≡ replicate (N - len) 0 },
}

impl<const N: usize> Row<N> {
    ghost use Rattle.question.specs.Rows.{held, HasRoom, IsMade};

    pub fn word(&self) -> &[u8]
        ensures value { result.now ≡ held self.now }
        ensures short { length result.now ≤ N }
        ensures below { Symbols result.now }
    {
        &self.symbols[..usize::from(self.len)]
    }

    /// The row's word with `word` after it.
    // That bytes are symbols is kept as a clause, here and below: words come as bytes from pools, whose law it is.
    pub(crate) fn followed_by(&self, word: &[u8]) -> Row<N>
        requires fits { (length (held self.now) + length word.now ≤ N) × (N ≤ 255) }
        requires symbols { Symbols word.now }
        ensures { held result ≡ held self.now ++ word.now }
    {
        let start = usize::from(self.len);
        let end = start + word.len();
        let mut symbols = self.symbols;
        let places = &mut symbols[..];
        places[start..end].copy_from_slice(word);
        Row {
            len: end as u8,
            symbols,
        }
    }

    /// The two words in a row, one after the other, if it has room for them and each byte is a symbol.
    pub fn joined(front: &[u8], back: &[u8]) -> Result<Row<N>, WordError>
        ensures { IsMade (HasRoom N (length front.now + length back.now)) (Symbols front.now × Symbols back.now) (λ row. held row ≡ front.now ++ back.now) result }
    {
        if N > 255 || front.len() + back.len() > N {
            return Err(WordError::TooLong);
        }
        if !all_symbols(front) || !all_symbols(back) {
            return Err(WordError::SymbolTooHigh);
        }
        Ok(Row::of(front).followed_by(back))
    }

    pub(crate) fn of(word: &[u8]) -> Row<N>
        requires fits { (length word.now ≤ N) × (N ≤ 255) }
        requires symbols { Symbols word.now }
        ensures { held result ≡ word.now }
    {
        Row::default().followed_by(word)
    }
}

impl<const N: usize> Default for Row<N> {
    ghost use Rattle.std.specs.Prelude.{◌≡◌, []};
    ghost use Rattle.question.specs.Rows.{held};

    ghost is_default = { λ row. held row ≡ [] };

    /// The empty word.
    fn default() -> Row<N> {
        Row {
            len: 0,
            symbols: [0; N],
        }
    }
}

impl<const N: usize> TryFrom<&[u8]> for Row<N> {
    type Error = WordError;

    ghost use Rattle.question.specs.Rows.{held, HasRoom, IsMade};

    ghost try_from_gives = { λ word r. IsMade (HasRoom N (length word.now)) (Symbols word.now) (λ row. held row ≡ word.now) r };

    /// The word in a row, if it has room for it and each byte is a symbol.
    fn try_from(word: &[u8]) -> Result<Row<N>, WordError> {
        Row::joined(word, &[])
    }
}
