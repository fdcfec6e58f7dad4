//! The limits of a session.

/// How many symbols a word may have that is heard, fired or made by a fire.
pub(crate) const WORD_LIMIT: usize = 32;
/// How many rules there are places for.
pub(crate) const RULE_PLACES: usize = 32;
/// How many heard words there are places for.
pub(crate) const HEARD_PLACES: usize = 64;
/// How many bytes of the list an ask uses to tell a climb.
pub(crate) const LIST_USED: usize = 4;
