//! Which facts hold, where clauses say what follows from what, and why one does.
//!
//! A fact is a number from 0 up to a count. A clause has at most two facts as its body, and one as its head: where all
//! of the body holds, so does the head. What holds is the least set that is closed under the clauses, so that no fact
//! holds by itself alone. The modules:
//!
//! - `fact`: facts, and the type of their sets;
//! - `clause`: clauses;
//! - `bodies`: the places in bodies where each fact stands;
//! - `closing`: the facts that hold;
//! - `reasons`: why one of them does;
//! - `hints`: guesses at where facts stand in a list; `named`: facts of any ordered type, as numbers;
//! - `known`: which of them hold, and why;
//! - `laws` on what holds.
#![tactic(auto)]

mod bodies;
pub mod clause;
pub mod closing;
pub mod fact;
pub mod hints;
pub mod known;
pub mod laws;
mod named;
pub mod reasons;

pub use clause::{Clause, are_within};
pub use closing::{Closed, closure};
pub use fact::{FactIx, Facts};
pub use hints::Spread;
pub use known::{ClosureFault, Known};
pub use reasons::derivation;
