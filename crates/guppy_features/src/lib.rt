//! Which packages take part in a build, on which side and with which features, as Cargo resolves it.
//!
//! A fact says of a package, on a side, that it takes part, that an optional dependency of its is switched on, or that a
//! feature of its is on. Some facts hold because they are asked for. Others follow, by the packages' features and
//! dependencies, from facts that hold. A [`CargoSet`] has these facts and no other.
//!
//! A package that takes part need not be built: build dependencies take part even where there is no build script. And
//! only Cargo's resolver of features is followed. That of versions, which runs first, can leave out an optional
//! dependency that nothing but a dev-dependency's feature, as in `f = ["testkit/g"]`, leads to; it takes part here, and
//! Cargo builds without it.
//!
//! The modules, from the bottom up:
//!
//! - `fact`: what may hold of a package;
//! - `options`: what is asked of Cargo;
//! - `dependencies`: the dependencies of a package, six for each link that leaves it;
//! - `question`: the graph with what is asked, and what both say of a dependency;
//! - `resolved`: which optional dependencies links are of;
//! - `rules`: a list of clauses, each of which says that a fact follows from at most two;
//! - `needs`, `values` and `roots`: the clauses by what a dependency needs, by what a feature's value switches on, and by
//!   what is asked of a chosen package;
//! - `clauses`: all of them;
//! - `reason`: why a fact holds, in steps;
//! - `set`: the facts that hold;
//! - `unresolved`: optional dependencies that are switched on though nothing is resolved for them;
//! - `chosen`: which packages are asked for what, by a command line's features.
#![tactic(auto)]

mod chosen;
mod clauses;
pub mod dependencies;
mod fact;
mod needs;
mod options;
mod question;
mod reason;
mod resolved;
mod roots;
mod rules;
mod set;
mod unresolved;
mod values;

pub use crate::chosen::{ChosenFault, initials_for};
pub use crate::fact::{BuildPlatform, Fact, FactKind};
pub use crate::options::{CargoOptions, CargoResolverVersion, Initial, StandardFeatures};
pub use crate::question::{Asked, is_macro_library, may_be_on};
pub use crate::reason::Reason;
pub use crate::set::CargoSet;
pub use crate::unresolved::OptionalDependency;
pub use guppy_closure::ClosureFault;
