//! Why a call is refused.
ghost use Rattle.std.specs.Prelude.{◌≡◌};
ghost use Rattle.session.specs.Faults.{number_of, fault_of};

use question::row::WordError;

/// Why a call is refused. Each fault has a number.
#[derive(Clone, Copy, PartialEq, Eq, Debug)]
pub enum Fault {
    /// A stage that is not below the order's size.
    NoSuchStage = 5,
    /// A symbol above 15.
    SymbolTooHigh = 6,
    /// A word above 32 symbols, or a side above 4.
    TooLong = 7,
    /// The rule leads to a stage that does not stand at or above the one it leads from.
    Falls = 8,
    /// A workspace or a list for the climb that is too short.
    BufferShort = 9,
    /// All places for rules are taken.
    RulesFull = 10,
    /// All places for heard words are taken, and the word is new.
    HeardFull = 11,
    /// No rule has that number.
    NoSuchRule = 12,
    /// The rule leads from another stage than the present one.
    OtherStage = 13,
    /// The pool does not hold the word.
    NotInPool = 14,
    /// The word does not begin with the rule's left side.
    OtherBeginning = 15,
    /// The resulting word is above 32 symbols.
    ResultTooLong = 16,
    /// Some rise to the goal is too heavy.
    TooHeavy = 17,
}

impl From<Fault> for u8 {
    ghost from_gives = { λ fault number. number ≡ number_of fault };

    fn from(fault: Fault) -> u8 {
        fault as u8
    }
}

impl From<WordError> for Fault {
    ghost from_gives = { λ error fault. fault ≡ fault_of error };

    fn from(error: WordError) -> Fault {
        match error {
            WordError::TooLong => Fault::TooLong,
            WordError::SymbolTooHigh => Fault::SymbolTooHigh,
        }
    }
}
