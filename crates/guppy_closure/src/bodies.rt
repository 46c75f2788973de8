//! The places in bodies where each fact stands.
ghost use Rattle.std.specs.Prelude.{◌≡◌, ℕ, ◌+◌, ◌*◌, ◌<◌, ◌^◌, ◌∷◌, [], ◌++◌, Option, Some, List, length, IfOk, All, vec_len, vec_capacity};
ghost use Rattle.guppy_closure.specs.Clauses.{IsWithin};
ghost use Rattle.guppy_closure.specs.Places.{slots, AreLinked};

use crate::clause::Clause;
use std::alloc::{AllocError, Global};

/// Where facts stand in bodies. The clause `n` has the places `2 * n` and `2 * n + 1`. The places of a fact are linked
/// from the last one on; each is told by one more than its number, and 0 tells that there is none.
#[derive(Drop)]
pub(crate) struct Bodies {
    /// The last place of each fact.
    pub(crate) last: Vec<u32>,
    /// For each place, the one before it that has the same fact.
    pub(crate) earlier: Vec<u32>,
}

impl Bodies {
    /// The places of these clauses. Takes memory for a number a fact and two a clause.
    pub(crate) fn new(
        alloc: Global,
        clauses: &[Clause<usize>],
        count: usize,
    ) -> Result<Self, AllocError>
        requires within { All (IsWithin count) clauses.now }
        requires few { length clauses.now < 2 ^ 31 }
        ensures count { IfOk result (λ bodies. length bodies.last.items ≡ count) }
        ensures linked { IfOk result (λ bodies. AreLinked (slots clauses.now) bodies.last.items
            bodies.earlier.items) }
    {
        let last = vec![in alloc; 0; count]?;
        let earlier = Vec::with_capacity(alloc, 2 * clauses.len())?;
        let mut bodies = Bodies { last, earlier };
        'clauses: for clause in clauses {
            bodies.add(clause.first);
            bodies.add(clause.second);
        }
        Ok(bodies)
    }

    // Adds a place, which has the fact, if there is one.
    fn add(&mut self, fact: Option<usize>)
        requires within { (f : ℕ) → fact ≡ Some f → f < length self.old.last.items }
        requires room { vec_len self.old.earlier < vec_capacity self.old.earlier }
        requires few { vec_len self.old.earlier + 1 < 2 ^ 32 }
        ensures count { length self.new.last.items ≡ length self.old.last.items }
        ensures linked { (facts : List (Option ℕ)) → AreLinked facts self.old.last.items self.old.earlier.items
            → AreLinked (facts ++ fact ∷ []) self.new.last.items self.new.earlier.items }
        ensures length { vec_len self.new.earlier ≡ vec_len self.old.earlier + 1 }
        ensures capacity { vec_capacity self.new.earlier ≡ vec_capacity self.old.earlier }
    {
        let Some(fact) = fact else {
            self.earlier.push_reserved(0);
            return;
        };
        self.earlier.push_reserved(self.last[fact]);
        self.last[fact] = self.earlier.len() as u32;
    }
}
