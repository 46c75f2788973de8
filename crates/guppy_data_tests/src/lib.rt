//! Tests of `guppy_data` through its public calls alone.
//!
//! They stand beside the library and not in it: a crate with tests is proved twice, with them and without.
//! Examples of one kind are the cases of a table, each with its name, what is given, and what holds of it.
#![tactic(auto)]

#[cfg(test)]
mod cases;
pub mod evaluators;
#[cfg(test)]
mod owned;
#[cfg(test)]
mod platform;
#[cfg(test)]
mod printed;
#[cfg(test)]
mod records;
#[cfg(test)]
mod texts;
#[cfg(test)]
mod views;
