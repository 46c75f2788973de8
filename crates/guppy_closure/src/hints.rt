//! Guesses at where facts stand among all that are named.
ghost use Rattle.std.specs.Prelude.{◌<◌, ◌^◌, length, IsTrue, IfSome};
ghost use Rattle.guppy_closure.specs.Named.{IsExact, StandsAt};

use guppy_search::Hints;
use std::alloc::{AllocError, Global};
use std::cmp::Ordering;

// What the number of a fact is mixed with.
const FACTOR: usize = 0x9E37_79B9_7F4A_7C15;

/// What is looked for by a number.
pub trait Spread {
    /// A number that is another one for most facts. No contract needs anything of it.
    fn spread(&self) -> usize;
}

impl Spread for usize {
    fn spread(&self) -> usize {
        *self
    }
}

impl Spread for u64 {
    fn spread(&self) -> usize {
        *self as usize
    }
}

// A number for the fact, which most others don't have, nor any near it.
fn number_of<F: Spread>(fact: &F) -> usize {
    fact.spread().wrapping_mul(FACTOR)
}

/// Hints at all facts of the list but those whose places are taken.
pub(crate) fn hints_at<F: Spread>(alloc: Global, names: &[F]) -> Result<Hints, AllocError>
    requires { length names.now < 2 ^ 32 }
{
    let mut hints = Hints::empty(alloc, 4 * names.len())?;
    for (place, name) in names.iter().enumerate() {
        put(&mut hints, name, place);
    }
    Ok(hints)
}

/// Puts a hint that the fact stands at the place, if one of the places for it is free.
pub(crate) fn put<F: Spread>(hints: &mut Hints, fact: &F, place: usize)
    requires { place < 2 ^ 32 }
{
    hints.put(number_of(fact), place);
}

/// Where the fact stands in the list, if there is a hint at it. Takes at most four comparisons.
pub(crate) fn hinted<F: Ord + Spread>(hints: &Hints, names: &[F], fact: &F) -> Option<usize>
    requires { IsExact F.cmp }
    ensures { IfSome result (StandsAt names.now fact.now) }
{
    hints.find(
        number_of(fact),
        |place: usize| -> bool
            requires { IsExact F.cmp }
            ensures { IsTrue result → StandsAt names.entry.now fact.entry.now place }
        { stands_at(names, fact, place) },
    )
}

// Whether the fact stands there.
fn stands_at<F: Ord>(names: &[F], fact: &F, place: usize) -> bool
    requires { IsExact F.cmp }
    ensures { IsTrue result → StandsAt names.now fact.now place }
{
    match names.get(place) {
        Some(name) => name.cmp(fact) == Ordering::Equal,
        None => false,
    }
}
