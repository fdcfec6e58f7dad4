//! Symbols: the keys 0 to 15 that words are made of.
ghost use Rattle.std.specs.Prelude.{Decides};
ghost use Rattle.std.specs.List.{AllByRecursion};
ghost use Rattle.model.specs.Symbols.{Symbols, InSet};

// By the place of a byte that fails, here and below: the compiler looks for it in many bytes at once where it knows the memory,
// and with `all` it does not.
/// Whether each byte of `word` is a symbol.
pub fn all_symbols(word: &[u8]) -> bool
    ensures { Decides result (Symbols word.now) }
{
    word.iter().position(|byte| *byte > 15).is_none()
}

/// A set of symbols: bit `s` says whether symbol `s` is in it.
#[derive(Clone, Copy, PartialEq, Eq, Debug)]
pub struct SymbolSet(pub u16);

impl SymbolSet {
    /// Whether the symbol is in the set.
    pub fn has(self, symbol: u8) -> bool
        ensures { Decides result (InSet self.0 symbol) }
    {
        symbol < 16 && (self.0 >> symbol) % 2 == 1
    }

    /// Whether each byte of `word` is a symbol of the set.
    pub fn has_all(self, word: &[u8]) -> bool
        ensures { Decides result (AllByRecursion (InSet self.0) word.now) }
    {
        word.iter().position(|symbol| !self.has(*symbol)).is_none()
    }
}
