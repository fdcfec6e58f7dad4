//! The session.
#![tactic(auto)]

pub mod fault;
mod heard;
pub mod law;
mod limits;
mod rewrite;
mod session;
mod table;
mod telling;
