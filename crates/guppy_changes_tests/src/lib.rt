//! Tests of `guppy_changes`, and of what `guppy_built` refuses, through their public calls alone. What each case expects
//! follows from the rules of RULES.md.
#![tactic(auto)]

#[cfg(test)]
mod changes;
#[cfg(test)]
mod states;
#[cfg(test)]
mod unresolved;
