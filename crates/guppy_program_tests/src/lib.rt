//! Tests of `guppy_program`, `guppy_command`, `guppy_process` and `guppy_lines` through their public calls alone: runs
//! on answers and faults known from outside, and on devices that fail.
#![tactic(auto)]

#[cfg(test)]
mod devices;
#[cfg(test)]
mod runs;
