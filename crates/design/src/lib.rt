//! The file layer: design files and reports, in bytes.
//!
//! | room | what it has |
//! |---|---|
//! | `tags` | the tag of each kind of record |
//! | `fault` | why a file is refused, and where |
//! | `records` | the reader, which hands out a file record by record |
//! | `head` | the head of a file: its stages, its book and its known keys |
//! | `lines` | the lines of a report |
//! | `report` | the whole report on a file, in one call |
#![tactic(auto)]

pub mod fault;
pub mod head;
pub mod lines;
pub mod records;
pub mod report;
pub mod tags;
