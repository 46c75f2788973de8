//! Tests of package graphs through the public calls of `guppy` alone, of the publish order through that
//! of `guppy_publish`, and of whom changes affect through that of `guppy_affected`.
//!
//! They stand beside the library and not in it: a crate with tests is proved twice, with them and without.
//! Most are examples, written as texts: `records` says how a graph is written, and `examples` how a
//! question and its answer are. `drawn` and `boxed` have graphs whose searches are judged, by `judge` and
//! `reach`, and `visitors` the visitors, each with its meaning.
#![tactic(auto)]

#[cfg(test)]
mod boxed;
#[cfg(test)]
mod drawn;
#[cfg(test)]
mod examples;
#[cfg(test)]
mod faults;
#[cfg(test)]
mod filled;
#[cfg(test)]
mod graphs;
#[cfg(test)]
mod judge;
#[cfg(test)]
mod large;
#[cfg(test)]
mod lists;
#[cfg(test)]
mod members;
#[cfg(test)]
mod queries;
#[cfg(test)]
mod reach;
#[cfg(test)]
mod records;
#[cfg(test)]
mod sets;
#[cfg(test)]
mod views;
#[cfg(test)]
mod visitors;
