//! Tests of `guppy_core` through its public calls alone, and of `guppy_flat`, each of its calls on one graph: generated
//! graphs are judged by the tests of `rust/`.
//!
//! They stand beside the library and not in it: a crate with tests is proved twice, with them and without.
//! Examples of one kind are the cases of a table, each with its name, what is given, and what holds of it.
#![tactic(auto)]

#[cfg(test)]
mod buffered;
#[cfg(test)]
mod cycles;
#[cfg(test)]
mod dfs;
#[cfg(test)]
mod flat;
#[cfg(test)]
mod graphs;
#[cfg(test)]
mod positions;
#[cfg(test)]
mod resolve_core;
#[cfg(test)]
mod scc;
pub mod tables;
#[cfg(test)]
mod walk;
