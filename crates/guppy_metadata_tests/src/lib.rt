//! Tests of `guppy_metadata` and `guppy_target` through their public calls alone, the callers of the pages CALLING.md, each
//! called once, and `sections_on` of `guppy_extras`, for which a graph is read.
#![tactic(auto)]

#[cfg(test)]
mod callers;
#[cfg(test)]
mod overridden;
#[cfg(test)]
mod platforms;
#[cfg(test)]
mod reading;
#[cfg(test)]
mod sections;
