//! On which platforms something is enabled, as far as is known.

pub mod laws;
pub mod spec;
pub mod status;
pub mod target;
pub mod ternary;
