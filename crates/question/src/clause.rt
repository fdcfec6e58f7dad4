//! Clauses over bits, each of which accepts some words.
ghost use Rattle.std.specs.Prelude.{◌<◌};
ghost use Rattle.std.specs.Option.{unwrap_or};

use crate::row::Row;

/// Says, of every word x: if each bit of `body` accepts word·x, then the bit `head` accepts symbol·x, or x itself where
/// there is no symbol.
#[derive(Clone, Copy)]
pub(crate) struct Clause {
    pub head: u8,
    pub symbol: Option<u8>,
    pub word: Row<4>,
    pub body: u16,
    ghost bit: { head < 11 },
    ghost letter: { unwrap_or symbol 0 < 16 },
}

impl Default for Clause {
    fn default() -> Clause {
        Clause {
            head: 0,
            symbol: None,
            word: Row::default(),
            body: 0,
        }
    }
}
