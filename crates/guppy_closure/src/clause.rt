//! Clauses, and which facts they name.
ghost use Rattle.std.specs.Prelude.{◌≡◌, ◌↔◌, ℕ, ◌<◌, Some, length, All, IsTrue};
ghost use Rattle.guppy_closure.specs.Clauses.{IsWithin, is_given, is_met, is_there};

use crate::fact::Facts;
use guppy_search::IxSet;

/// The head holds where the whole body does, which has at most two facts. With an empty body it always does.
#[derive(Clone, Copy, Debug, PartialEq, Eq)]
pub struct Clause<F> {
    /// A fact of the body.
    pub first: Option<F>,
    /// Another one.
    pub second: Option<F>,
    /// What follows.
    pub head: F,
}

impl Clause<usize> {
    /// Whether each fact that it names is below the count.
    pub fn is_within(&self, count: usize) -> bool
        ensures { IsTrue result ↔ IsWithin count self.now }
    {
        if self.head >= count {
            return false;
        }
        if !is_below(self.first, count) {
            return false;
        }
        is_below(self.second, count)
    }

    /// Whether no fact stands in the body.
    pub(crate) fn is_given(&self) -> bool
        ensures { result ≡ is_given self.now }
    {
        self.first.is_none() && self.second.is_none()
    }

    /// Whether each fact of the body is in the set.
    pub(crate) fn is_met(&self, set: &IxSet<Facts>) -> bool
        requires { IsWithin (length set.now) self.now }
        ensures { result ≡ is_met self.now set.now }
    {
        is_there(self.first, set) && is_there(self.second, set)
    }
}

/// Whether each fact that the clauses name is below the count. Time grows with the clauses.
pub fn are_within(clauses: &[Clause<usize>], count: usize) -> bool
    ensures { IsTrue result ↔ All (IsWithin count) clauses.now }
{
    clauses.iter().all(|clause| clause.is_within(count))
}

// Whether the fact, if there is one, is below the count.
fn is_below(fact: Option<usize>, count: usize) -> bool
    ensures { IsTrue result ↔ ((f : ℕ) → fact ≡ Some f → f < count) }
{
    match fact {
        Some(fact) => fact < count,
        None => true,
    }
}

// Whether the fact, if there is one, is in the set.
fn is_there(fact: Option<usize>, set: &IxSet<Facts>) -> bool
    requires { (f : ℕ) → fact ≡ Some f → f < length set.now }
    ensures { result ≡ is_there fact set.now }
{
    match fact {
        Some(fact) => set.has_position(fact),
        None => true,
    }
}
