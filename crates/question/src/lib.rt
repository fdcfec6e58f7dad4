//! The question: whether a stage can be reached by any run at all, and by which earliest climb.
//!
//! | room | what it has |
//! |---|---|
//! | `row` | a word in a place of fixed size |
//! | `rule`, `climb` | rules, and the climb that a search finds |
//! | `verdict` | the question itself: the verdict on a goal |
//! | `weighing` | whether some rise is too heavy |
//! | `search` | the earliest climb that serves |
//! | `feasible` | whether some run has a given climb |
//! | `begun`, `bits`, `plan`, `clause`, `compile` | the predicates on words that a climb needs, and the clauses that define them |
//! | `mark`, `table`, `growth`, `reached`, `saturation` | the table of marks that decides the clauses |
//! | `theorems` | what is proved of runs, climbs and weights |
//!
//! Nothing here allocates. The question works in the workspace that it is lent and in small arrays of its own.
#![tactic(auto)]

mod begun;
mod bits;
mod clause;
pub mod climb;
mod compile;
mod feasible;
mod growth;
mod mark;
mod plan;
mod reached;
pub mod row;
pub mod rule;
mod saturation;
mod search;
mod table;
pub mod theorems;
pub mod verdict;
mod weighing;
