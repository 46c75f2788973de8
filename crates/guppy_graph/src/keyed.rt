//! Positions sorted and looked up by their keys: IDs, paths, names.
ghost use Rattle.std.specs.Prelude.{◌≡◌, ◌↔◌, ℕ, ◌<◌, List, length, filter, Option, IsTrue, is_some, IfOk, MatchOption};
ghost use Rattle.std.specs.List.{range_with_len};
ghost use Rattle.std.specs.List.Sorted.{IsPermutation};
ghost use Rattle.std.specs.declared.cmp.Ordering.{Ordering};
ghost use Rattle.std.specs.Ordering.{nat_cmp, on, then_cmp, is_lt};
ghost use Rattle.std.specs.Cmp.{IsTotalOrder};
ghost use Rattle.guppy_graph.specs.Keys.{or_empty, keyed, HasKey, IsIndex, NoneBelow, IsFirstWith, DifferBelow, HasKeyBefore, IsFirstRepeat, Rise};

use std::alloc::{AllocError, Global};
use std::cmp::Ordering;

/// Positions of which each may have a key, and an order of the keys.
pub(crate) trait Keyed {
    /// How many positions there are.
    ghost count: { Self → ℕ };

    /// The key at the position, if it has one.
    ghost key_at: { Self → ℕ → Option (List ℕ) };

    ghost order: { List ℕ → List ℕ → Ordering };

    ghost total: { IsTotalOrder order };

    fn position_count(&self) -> usize
        ensures { result ≡ count self.now };

    fn has_key(&self, position: usize) -> bool
        ensures { result ≡ is_some (key_at self.now position) };

    /// Compares the keys at two positions, where no key counts as the empty one.
    fn compare(&self, a: usize, b: usize) -> Ordering
        ensures { result ≡ order (or_empty (key_at self.now a)) (or_empty (key_at self.now b)) };
}

/// Keys that are texts.
pub(crate) trait KeyedByText: Keyed {
    /// Compares the key at the position with a text.
    fn compare_to(&self, position: usize, text: &str) -> Ordering
        ensures { result ≡ Self.order (or_empty (Self.key_at self.now position)) text.now };
}

// The positions that have keys, ascending.
fn keyed_positions<S: Keyed>(alloc: Global, source: &S) -> Result<Vec<usize>, AllocError>
    ensures { IfOk result (λ positions. positions.items
        ≡ keyed (S.key_at source.now) (S.count source.now)) }
{
    (0..source.position_count())
        .filter(
            |position: &usize| -> bool
                ensures { result ≡ is_some (S.key_at source.entry.now position.now) }
            { source.has_key(*position) },
        )
        .collect(alloc)
}

// Those of the positions that have keys.
fn keyed_of<S: Keyed>(
    alloc: Global,
    source: &S,
    positions: &[usize],
) -> Result<Vec<usize>, AllocError>
    ensures { IfOk result (λ kept. kept.items
        ≡ filter (λ p. is_some (S.key_at source.now p)) positions.now) }
{
    positions
        .iter()
        .copied()
        .filter(
            |position: &usize| -> bool
                ensures { result ≡ is_some (S.key_at source.entry.now position.now) }
            { source.has_key(*position) },
        )
        .collect(alloc)
}

// Positions that have keys, sorted by their keys, and those of equal keys by their numbers.
fn sorted<S: Keyed>(source: &S, mut positions: Vec<usize>) -> Vec<usize>
    requires { IsPermutation (keyed (S.key_at source.now) (S.count source.now)) positions.items }
    ensures { IsIndex S.order (S.key_at source.now) (S.count source.now) result.items }
{
    positions.sort_unstable_by(
        |a: &usize, b: &usize| -> Ordering
            ensures { result ≡ then_cmp (on
                (λ p. or_empty (S.key_at source.entry.now p)) S.order) nat_cmp a.now b.now }
        { source.compare(*a, *b).then(a.cmp(b)) },
    );
    positions
}

// Whether the keys ascend strictly in the order of these positions.
fn rise<S: Keyed>(source: &S, positions: &[usize]) -> bool
    ensures { IsTrue result → Rise S.order (S.key_at source.now) positions.now }
{
    positions.is_sorted_by(
        |a: &usize, b: &usize| -> bool
            ensures { result ≡ is_lt (S.order (or_empty (S.key_at source.entry.now a.now))
                (or_empty (S.key_at source.entry.now b.now))) }
        { source.compare(*a, *b).is_lt() },
    )
}

// Whether the position at the place has the key of the one before it in the index.
fn is_repeat<S: Keyed>(source: &S, index: &[usize], place: usize) -> bool
    requires after { 0 < place }
    requires within { place < length index.now }
    ensures { IsTrue result ↔ HasKeyBefore S.order (S.key_at source.now) index.now place }
{
    source.compare(index[place - 1], index[place]).is_eq()
}

// The first position that has the key of an earlier one. Positions of equal keys are neighbours in the index.
fn first_repeat<S: Keyed>(source: &S, index: &[usize]) -> Option<usize>
    requires { IsIndex S.order (S.key_at source.now) (S.count source.now) index.now }
    ensures { MatchOption result
        (DifferBelow (HasKey S.order (S.key_at source.now)) (S.count source.now))
        (IsFirstRepeat (HasKey S.order (S.key_at source.now))) }
{
    let mut lowest = source.position_count();
    for place in 1..index.len() {
        if is_repeat(source, index, place) {
            lowest = lowest.min(index[place]);
        }
    }
    (lowest < source.position_count()).then_some(lowest)
}

// Positions that have keys in the order of the keys, and the first that has the key of an earlier one. Where they
// stand in that order already, they are compared once.
fn indexed<S: Keyed>(source: &S, positions: Vec<usize>) -> (Vec<usize>, Option<usize>)
    requires { IsPermutation (keyed (S.key_at source.now) (S.count source.now)) positions.items }
    ensures index { IsIndex S.order (S.key_at source.now) (S.count source.now) result.0.items }
    ensures repeat { MatchOption result.1
        (DifferBelow (HasKey S.order (S.key_at source.now)) (S.count source.now))
        (IsFirstRepeat (HasKey S.order (S.key_at source.now))) }
{
    if rise(source, positions.as_slice()) {
        return (positions, None);
    }
    let index = sorted(source, positions);
    let repeat = first_repeat(source, index.as_slice());
    (index, repeat)
}

/// The positions that have keys, in the order of the keys, and the first that has the key of an earlier one.
pub(crate) fn index_of<S: Keyed>(
    alloc: Global,
    source: &S,
) -> Result<(Vec<usize>, Option<usize>), AllocError>
    ensures index { IfOk result (λ made. IsIndex S.order (S.key_at source.now)
        (S.count source.now) made.0.items) }
    ensures repeat { IfOk result (λ made. MatchOption made.1
        (DifferBelow (HasKey S.order (S.key_at source.now)) (S.count source.now))
        (IsFirstRepeat (HasKey S.order (S.key_at source.now)))) }
{
    Ok(indexed(source, keyed_positions(alloc, source)?))
}

/// The same, made of all positions in another order. Where that is the order of the keys too, they are
/// compared once.
pub(crate) fn index_from<S: Keyed>(
    alloc: Global,
    source: &S,
    positions: &[usize],
) -> Result<(Vec<usize>, Option<usize>), AllocError>
    requires { IsPermutation (range_with_len 0 (S.count source.now)) positions.now }
    ensures index { IfOk result (λ made. IsIndex S.order (S.key_at source.now)
        (S.count source.now) made.0.items) }
    ensures repeat { IfOk result (λ made. MatchOption made.1
        (DifferBelow (HasKey S.order (S.key_at source.now)) (S.count source.now))
        (IsFirstRepeat (HasKey S.order (S.key_at source.now)))) }
{
    Ok(indexed(source, keyed_of(alloc, source, positions)?))
}

/// The first position that has the text as its key.
pub(crate) fn position_of<S: KeyedByText>(source: &S, index: &[usize], text: &str) -> Option<usize>
    requires { IsIndex S.order (S.key_at source.now) (S.count source.now) index.now }
    ensures { MatchOption result
        (NoneBelow (HasKey S.order (S.key_at source.now)) text.now (S.count source.now))
        (IsFirstWith (HasKey S.order (S.key_at source.now)) text.now) }
{
    let place = index.partition_point(
        |p: &usize| -> bool
            ensures { result ≡ is_lt (S.order
                (or_empty (S.key_at source.entry.now p.now)) text.entry.now) }
        { source.compare_to(*p, text).is_lt() },
    );
    match index.get(place) {
        Some(first) if source.compare_to(*first, text).is_eq() => Some(*first),
        _ => None,
    }
}
