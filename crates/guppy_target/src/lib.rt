//! What `cfg(..)` and the names of platforms say of a platform: an evaluator for `guppy::platform`.
//!
//! The modules, from the bottom up:
//!
//! - `text`: words, quoted texts and marks at the front of a text;
//! - `fault` and `platform`: what a compiler says of a platform;
//! - `predicate`: whether the predicate at the front of a text holds;
//! - `eval`: [`CfgEval`], and `laws` on it.
#![tactic(auto)]

mod eval;
mod fault;
pub mod laws;
mod platform;
mod predicate;
mod text;

pub use crate::eval::CfgEval;
pub use crate::fault::PlatformFault;
pub use crate::platform::{Platform, are_settings};
