//! Why a fact holds.
ghost use Rattle.std.specs.Prelude.{◌≡◌, ◌↔◌, ◌<◌, Some, IfOk, IsTrue, All, length};
ghost use Rattle.guppy_closure.specs.Clauses.{Holds};
ghost use Rattle.guppy_features.specs.declared.fact.Fact.{Fact};
ghost use Rattle.guppy_features.specs.Reasons.{AreLeading, Leads, reason_of, reasons_of};

use crate::fact::Fact;
use guppy_closure::{Clause, Known};
use std::alloc::{AllocError, Global};

/// A step of why a fact holds: a fact with what it follows from. Where that is nothing, it is asked for.
#[derive(Clone, Copy, Debug, PartialEq, Eq)]
pub struct Reason {
    /// The fact.
    pub fact: Fact,
    /// A fact that it follows from, if there is one.
    pub first: Option<Fact>,
    /// Another one, if there is one.
    pub second: Option<Fact>,
}

impl Reason {
    // The clause as a step.
    fn of(clause: &Clause<Fact>) -> Self
        ensures { result ≡ reason_of clause.now }
    {
        Reason {
            fact: clause.head,
            first: clause.first,
            second: clause.second,
        }
    }
}

/// The clauses of these numbers as steps.
pub(crate) fn reasons_of(
    alloc: Global,
    clauses: &[Clause<Fact>],
    numbers: &[usize],
) -> Result<Vec<Reason>, AllocError>
    requires { All (λ n. n < length clauses.now) numbers.now }
    ensures { IfOk result (λ reasons. reasons.items ≡ reasons_of clauses.now numbers.now) }
{
    let mut reasons = Vec::with_capacity(alloc, numbers.len())?;
    for number in numbers {
        reasons.push(Reason::of(&clauses[*number]))?;
    }
    Ok(reasons)
}

/// The steps of those clauses that lead to the fact.
pub(crate) fn ways_of(
    alloc: Global,
    known: &Known<Fact>,
    fact: Fact,
) -> Result<Vec<Reason>, AllocError>
    ensures { IfOk result (λ ways. AreLeading known.now known.now fact ways.items) }
{
    let mut ways = Vec::new(alloc);
    for clause in known.clauses() {
        if is_way(known, clause, fact) {
            ways.push(Reason::of(clause))?;
        }
    }
    Ok(ways)
}

// Whether the clause's head is the fact, and all of its body holds.
fn is_way(known: &Known<Fact>, clause: &Clause<Fact>, fact: Fact) -> bool
    ensures { IsTrue result ↔ Leads known.now fact clause.now }
{
    clause.head == fact && holds(known, clause.first) && holds(known, clause.second)
}

// Whether the fact holds, if there is one.
fn holds(known: &Known<Fact>, fact: Option<Fact>) -> bool
    ensures { IsTrue result ↔ ((f : Fact) → fact ≡ Some f → Holds known.now f) }
{
    match fact {
        Some(fact) => known.holds(&fact),
        None => true,
    }
}
