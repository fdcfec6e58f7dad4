//! Tests of the crates below through their public calls.
#![tactic(auto)]

#[cfg(test)]
mod files;
#[cfg(test)]
mod orders;
#[cfg(test)]
mod pools;
#[cfg(test)]
mod questions;
