//! Tests of `guppy_closure` through its public calls alone: all small systems and drawn ones, judged by going through
//! the clauses again and again, and long chains, each over numbers and over names.
#![tactic(auto)]

#[cfg(test)]
mod chains;
#[cfg(test)]
mod judge;
#[cfg(test)]
mod known;
#[cfg(test)]
mod systems;
