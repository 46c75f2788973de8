//! Facts of any ordered type, by their places among all that are named.
ghost use Rattle.std.specs.Prelude.{◌≡◌, ℕ, ◌+◌, ◌*◌, ◌<◌, ◌≤◌, ◌^◌, Some, length, flat_map, slice_get, Contains, IfOk, OnOk, MatchOption, vec_len};
ghost use Rattle.std.specs.List.Sorted.{IsStrictlySortedBy};
ghost use Rattle.guppy_search.specs.IxSet.{IsIn};
ghost use Rattle.guppy_closure.specs.declared.clause.Clause.{Clause};
ghost use Rattle.guppy_closure.specs.Named.{IsExact, facts_of, HasNames, StandsAt, held, IsSameFact, IsSameClause, AreSame};

use crate::clause::Clause;
use crate::fact::Facts;
use crate::hints::{Spread, hinted, put};
use guppy_search::{Hints, IxSet};
use std::alloc::{AllocError, Global};

/// The facts that the clauses name, ascending, each once.
pub(crate) fn names_of<F: Ord + Copy + Spread>(
    alloc: Global,
    clauses: &[Clause<F>],
) -> Result<Vec<F>, AllocError>
    requires exact { IsExact F.cmp }
    requires few { length clauses.now < 2 ^ 30 }
    ensures order { IfOk result (λ names. IsStrictlySortedBy F.cmp names.items) }
    ensures named { IfOk result (λ names. HasNames clauses.now names.items) }
    ensures few { IfOk result (λ names. length names.items ≤ 3 * length clauses.now) }
{
    let mut names = listed_names(alloc, clauses)?;
    names.sort_unstable();
    names.dedup();
    Ok(names)
}

// The facts that the clauses name, by the first clause that does, and mostly once each.
fn listed_names<F: Ord + Copy + Spread>(
    alloc: Global,
    clauses: &[Clause<F>],
) -> Result<Vec<F>, AllocError>
    requires exact { IsExact F.cmp }
    requires few { length clauses.now < 2 ^ 30 }
    ensures named { IfOk result (λ names. HasNames clauses.now names.items) }
    ensures few { IfOk result (λ names. length names.items ≤ 3 * length clauses.now) }
{
    let mut names = Vec::new(alloc);
    let mut hints = Hints::empty(alloc, 2 * clauses.len())?;
    'clauses: for clause in clauses {
        add_names(&mut names, &mut hints, clause)?;
    }
    Ok(names)
}

// Puts the facts behind that the clause names, but for those at which there is a hint.
fn add_names<F: Ord + Copy + Spread>(
    names: &mut Vec<F>,
    hints: &mut Hints,
    clause: &Clause<F>,
) -> Result<(), AllocError>
    requires exact { IsExact F.cmp }
    requires room { vec_len names.old + 3 < 2 ^ 32 }
    ensures kept { OnOk result ((f : F) → Contains names.old.items f → Contains names.new.items f) }
    ensures named { OnOk result ((f : F) → Contains (facts_of clause.now) f → Contains names.new.items f) }
    ensures few { OnOk result (vec_len names.new ≤ vec_len names.old + 3) }
{
    add_if_some(names, hints, clause.first)?;
    add_if_some(names, hints, clause.second)?;
    add_name(names, hints, &clause.head)?;
    Ok(())
}

// Puts the fact behind, if there is one, but not where there is a hint at it.
fn add_if_some<F: Ord + Copy + Spread>(
    names: &mut Vec<F>,
    hints: &mut Hints,
    fact: Option<F>,
) -> Result<(), AllocError>
    requires exact { IsExact F.cmp }
    requires room { vec_len names.old + 1 < 2 ^ 32 }
    ensures kept { OnOk result ((f : F) → Contains names.old.items f → Contains names.new.items f) }
    ensures named { OnOk result ((f : F) → fact ≡ Some f → Contains names.new.items f) }
    ensures few { OnOk result (vec_len names.new ≤ vec_len names.old + 1) }
{
    match fact {
        Some(fact) => add_name(names, hints, &fact),
        None => Ok(()),
    }
}

// Puts the fact behind, but not where there is a hint at it.
fn add_name<F: Ord + Copy + Spread>(
    names: &mut Vec<F>,
    hints: &mut Hints,
    fact: &F,
) -> Result<(), AllocError>
    requires exact { IsExact F.cmp }
    requires room { vec_len names.old + 1 < 2 ^ 32 }
    ensures kept { OnOk result ((f : F) → Contains names.old.items f → Contains names.new.items f) }
    ensures named { OnOk result (Contains names.new.items fact.now) }
    ensures few { OnOk result (vec_len names.new ≤ vec_len names.old + 1) }
{
    if hinted(hints, names, fact).is_some() {
        return Ok(());
    }
    put(hints, fact, names.len());
    names.push(*fact)?;
    Ok(())
}

/// The place of the fact, if it is named. Mostly takes one comparison, and at most of the order of log n for n names.
pub(crate) fn find<F: Ord + Spread>(names: &[F], hints: &Hints, fact: &F) -> Option<usize>
    requires exact { IsExact F.cmp }
    requires order { IsStrictlySortedBy F.cmp names.now }
    ensures { MatchOption result (¬ Contains names.now fact.now) (StandsAt names.now fact.now) }
{
    match hinted(hints, names, fact) {
        Some(place) => Some(place),
        None => names.binary_search(fact).ok(),
    }
}

/// The clauses by the places of their facts, which are all named.
pub(crate) fn numbered<F: Ord + Copy + Spread>(
    alloc: Global,
    clauses: &[Clause<F>],
    names: &[F],
    hints: &Hints,
) -> Result<Vec<Clause<usize>>, AllocError>
    requires exact { IsExact F.cmp }
    requires order { IsStrictlySortedBy F.cmp names.now }
    requires named { (f : F) → Contains (flat_map facts_of clauses.now) f → Contains names.now f }
    ensures { IfOk result (λ numbered. AreSame (StandsAt names.now) clauses.now numbered.items) }
{
    let mut numbered = Vec::with_capacity(alloc, clauses.len())?;
    'clauses: for clause in clauses {
        numbered.push_reserved(by_places(clause, names, hints));
    }
    Ok(numbered)
}

// The clause by the places of its facts.
fn by_places<F: Ord + Copy + Spread>(
    clause: &Clause<F>,
    names: &[F],
    hints: &Hints,
) -> Clause<usize>
    requires exact { IsExact F.cmp }
    requires order { IsStrictlySortedBy F.cmp names.now }
    requires named { (f : F) → Contains (facts_of clause.now) f → Contains names.now f }
    ensures { IsSameClause (StandsAt names.now) clause.now result }
{
    Clause {
        first: place_if_some(clause.first, names, hints),
        second: place_if_some(clause.second, names, hints),
        head: place_of(&clause.head, names, hints),
    }
}

// The place of the fact, if there is one.
fn place_if_some<F: Ord + Copy + Spread>(
    fact: Option<F>,
    names: &[F],
    hints: &Hints,
) -> Option<usize>
    requires exact { IsExact F.cmp }
    requires order { IsStrictlySortedBy F.cmp names.now }
    requires named { (f : F) → fact ≡ Some f → Contains names.now f }
    ensures { IsSameFact (StandsAt names.now) fact result }
{
    match fact {
        Some(fact) => Some(place_of(&fact, names, hints)),
        None => None,
    }
}

// The place of a fact that is named.
fn place_of<F: Ord + Spread>(fact: &F, names: &[F], hints: &Hints) -> usize
    requires exact { IsExact F.cmp }
    requires order { IsStrictlySortedBy F.cmp names.now }
    requires named { Contains names.now fact.now }
    ensures { StandsAt names.now fact.now result }
{
    find(names, hints, fact).unwrap()
}

/// The facts whose places are in the set, in their order.
pub(crate) fn held<F: Copy>(
    alloc: Global,
    names: &[F],
    set: &IxSet<Facts>,
) -> Result<Vec<F>, AllocError>
    requires { length set.now ≡ length names.now }
    ensures { IfOk result (λ facts. facts.items ≡ held set.now names.now) }
{
    let mut facts = Vec::with_capacity(alloc, set.len())?;
    'names: for (place, name) in names.iter().enumerate() {
        if set.has_position(place) {
            facts.push(*name)?;
        }
    }
    Ok(facts)
}
