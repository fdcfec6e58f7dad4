//! Orders of stages and pools of words: what a checker of message designs stands on.
//!
//! | room | what it has |
//! |---|---|
//! | `orders` | the trait of orders; ladders, sets of flags, and pairs of orders |
//! | `symbols` | the keys that words are made of, and sets of them |
//! | `sieve` | a table of marks that words are read through |
//! | `pools` | the trait of pools; two pools joined |
//! | `book` | a pool written out in bytes |
//! | `keys` | a pool of known keys round an end symbol |
//! | `closing` | the marks from which known keys lead to a wanted one |
//!
//! Nothing here allocates, and no public call has a premise: any bytes, any sieve and any stage
//! number get the answer that the definitions in `specs/` give.
#![tactic(auto)]

pub mod book;
pub mod closing;
pub mod keys;
pub mod orders;
pub mod pools;
pub mod sieve;
pub mod symbols;
