ghost use Rattle.std.specs.Prelude.{◌≡◌, ◌↔◌, ◌==◌, ℕ, ◌<◌, ◌^◌, Bool, true, false, not, List, [], length, map, drop, IfOk, MatchOption, All, Contains, slice_set, replicate};
ghost use Rattle.std.specs.Iterator.{IsFinite, HoldsAlong, Drains};
ghost use Rattle.guppy_search.specs.Bitwise.{IsBitwise};

use crate::ix::index_type::{GraphSpec, IndexType};
use crate::ix::words::{combine, count_set_bits};
use std::alloc::{AllocError, Global};
use std::marker::{Model, PhantomData};

/// A set of positions of a graph, a bit for each. It stands in place of guppy's `IxBitSet`.
#[derive(Drop)]
pub struct IxSet<G: GraphSpec> {
    words: Vec<u64>,
    count: usize,
    len: usize,
    spec: PhantomData<G>,
}

impl<G: GraphSpec> Model for IxSet<G> {
    ghost use Rattle.std.specs.Prelude.{List, Bool};
    ghost use Rattle.guppy_search.specs.IxSet.{marks_of, IsBitSet};

    ghost Value = { List Bool };

    ghost view = { λ s. marks_of s.words.items s.count };

    ghost invariant = { λ s. IsBitSet s.words.items s.count s.len };
}

impl<G: GraphSpec> IxSet<G> {
    ghost use Rattle.guppy_search.specs.IxSet.{has, IsIn, IsUnion, IsIntersection, IsDifference, IsSymmetricDifference, member_count, positions_from, positions_in, IsFirstFrom};

    /// The set with no position, for a graph of so many nodes.
    ///
    /// Takes memory: one bit a node. Fails only where there is none.
    pub fn empty(alloc: Global, node_count: usize) -> Result<Self, AllocError>
        ensures { IfOk result (λ s. s ≡ replicate node_count false) }
    {
        let words = vec![in alloc; 0; node_count / 64 + 1]?;
        Ok(IxSet {
            words,
            count: node_count,
            len: 0,
            spec: PhantomData,
        })
    }

    /// The set of exactly the given positions, each below the node count; repeats count once.
    ///
    /// Time grows with the nodes and the positions given. Takes memory: one bit a node. Fails only
    /// where there is none.
    pub fn from_ixs<I: Iterator<Item = G::Ix> + Drop>(
        alloc: Global,
        ixs: I,
        node_count: usize,
    ) -> Result<Self, AllocError>
        requires can { I.can_next ixs }
        requires ends { IsFinite (I.remaining ixs) }
        requires below { HoldsAlong I.next_gives ixs (All (λ x. G.Ix.index_of x < node_count)) }
        ensures count { IfOk result (λ s. length s ≡ node_count) }
        ensures members { IfOk result (λ s. (xs : List G.Ix) × Drains I.next_gives ixs xs
            × ((p : ℕ) → IsIn s p ↔ Contains (map G.Ix.index_of xs) p)) }
    {
        let mut set = Self::empty(alloc, node_count)?;
        for ix in ixs {
            set.insert_position(ix.index());
        }
        Ok(set)
    }

    /// How many positions are in the set, each counted once. Takes the same time at any set.
    pub fn len(&self) -> usize
        ensures { result ≡ member_count self.now }
    {
        self.len
    }

    /// Whether no position is in the set.
    pub fn is_empty(&self) -> bool
        ensures { result ≡ (member_count self.now == 0) }
    {
        self.len == 0
    }

    /// Whether the position, which is below the node count, is in the set. Takes the same time at
    /// any set.
    pub fn contains(&self, ix: G::Ix) -> bool
        requires { G.Ix.index_of ix < length self.now }
        ensures { result ≡ has self.now (G.Ix.index_of ix) }
    {
        self.has_position(ix.index())
    }

    /// The positions in the set, ascending, each once. The time for all of them grows with the
    /// node count.
    pub fn ones(&self) -> IxOnes<'_, G>
        ensures positions { result ≡ positions_in self.now }
        ensures count { length result ≡ member_count self.now }
    {
        IxOnes {
            set: self,
            at: 0,
            left: self.len,
        }
    }

    /// How many nodes the set's graph has.
    pub fn node_count(&self) -> usize
        ensures { result ≡ length self.now }
    {
        self.count
    }

    /// [`contains`](IxSet::contains) for a position that is a plain number, as a link's ends are.
    /// What is in a set is below 2^32.
    pub fn has_position(&self, position: usize) -> bool
        requires { position < length self.now }
        ensures value { result ≡ has self.now position }
        ensures small { IsIn self.now position → position < 2 ^ 32 }
    {
        (self.words[position / 64] >> (position % 64)) & 1 == 1
    }

    /// The lowest position in the set from the given one on.
    fn first_from(&self, start: usize) -> Option<usize>
        ensures { MatchOption result (positions_from start (drop start self.now) ≡ [])
            (IsFirstFrom self.now start) }
    {
        for position in start..self.node_count() {
            if self.has_position(position) {
                return Some(position);
            }
        }
        None
    }

    /// Puts the position, which is below the node count, in, and says whether it is new. Takes the
    /// same time at any set.
    pub fn insert(&mut self, ix: G::Ix) -> bool
        requires { G.Ix.index_of ix < length self.old }
        ensures is_new { result ≡ not (has self.old (G.Ix.index_of ix)) }
        ensures after { self.new ≡ slice_set self.old (G.Ix.index_of ix) true }
    {
        self.insert_position(ix.index())
    }

    /// [`insert`](IxSet::insert) for a position that is a plain number below 2^32, as a link's ends
    /// are.
    pub fn insert_position(&mut self, position: usize) -> bool
        requires in_range { position < length self.old }
        requires small { position < 2 ^ 32 }
        ensures is_new { result ≡ not (has self.old position) }
        ensures after { self.new ≡ slice_set self.old position true }
    {
        if self.has_position(position) {
            return false;
        }
        let word = self.words[position / 64];
        self.words[position / 64] = word | (1 << (position % 64));
        self.len += 1;
        true
    }

    /// Puts in place of each word what the operation makes of it and of the other set's word, bit by
    /// bit. The other set is of as many nodes.
    fn combine_with<F: Fn(u64, u64) -> u64>(&mut self, other: &Self, operation: F)
        requires count { length other.now ≡ length self.old }
        requires callable { F.IsAlwaysCallable operation }
        requires bitwise { (both : Bool → Bool → Bool)
            × IsBitwise (λ a b r. F.post operation a b r) both }
        ensures count { length self.new ≡ length self.old }
        ensures members { (both : Bool → Bool → Bool)
            → IsBitwise (λ a b r. F.post operation a b r) both
            → (p : ℕ) → has self.new p ≡ both (has self.old p) (has other.now p) }
    {
        combine(&mut self.words, &other.words, operation);
        self.len = count_set_bits(&self.words);
    }

    /// Puts in the positions of the other set, which is of as many nodes.
    ///
    /// Time grows with the node count, 64 positions a step. Takes no memory.
    pub fn union_with(&mut self, other: &Self)
        requires { length other.now ≡ length self.old }
        ensures count { length self.new ≡ length self.old }
        ensures members { IsUnion self.old other.now self.new }
    {
        self.combine_with(other, |word, theirs| word | theirs);
    }

    /// Takes out the positions that are not in the other set, which is of as many nodes.
    ///
    /// Time grows with the node count, 64 positions a step. Takes no memory.
    pub fn intersect_with(&mut self, other: &Self)
        requires { length other.now ≡ length self.old }
        ensures count { length self.new ≡ length self.old }
        ensures members { IsIntersection self.old other.now self.new }
    {
        self.combine_with(other, |word, theirs| word & theirs);
    }

    /// Takes out the positions of the other set that are in this one, and puts in its others. The
    /// other set is of as many nodes.
    ///
    /// Time grows with the node count, 64 positions a step. Takes no memory.
    pub fn symmetric_difference_with(&mut self, other: &Self)
        requires { length other.now ≡ length self.old }
        ensures count { length self.new ≡ length self.old }
        ensures members { IsSymmetricDifference self.old other.now self.new }
    {
        self.combine_with(other, |word, theirs| word ^ theirs);
    }

    /// The positions that are not in the other set, which is of as many nodes.
    ///
    /// Time grows with the node count, 64 positions a step. Takes memory: one bit a node. Fails
    /// only where there is none.
    pub fn difference(&self, other: &Self) -> Result<Self, AllocError>
        requires { length other.now ≡ length self.now }
        ensures count { IfOk result (λ rest. length rest ≡ length self.now) }
        ensures members { IfOk result (IsDifference self.now other.now) }
    {
        let mut rest = self.clone()?;
        rest.combine_with(other, |word, theirs| word & !theirs);
        Ok(rest)
    }

    /// Takes every position out.
    pub(crate) fn clear(&mut self)
        ensures { self.new ≡ replicate (length self.old) false }
    {
        self.words.fill(0);
        self.len = 0;
    }
}

impl<G: GraphSpec> Clone for IxSet<G> {
    ghost is_clone = { λ s t. t ≡ s };

    /// The same set. Takes memory: one bit a node. Fails only where there is none.
    fn clone(&self) -> Result<Self, AllocError> {
        let words = self.words.clone()?;
        Ok(IxSet {
            words,
            count: self.count,
            len: self.len,
            spec: PhantomData,
        })
    }
}

/// The positions of a set that are still to come, ascending. Its `len` and its `size_hint` are
/// exact.
#[derive(Drop)]
pub struct IxOnes<'s, G: GraphSpec> {
    set: &'s IxSet<G>,
    at: usize,
    left: usize,
}

impl<'s, G: GraphSpec> Model for IxOnes<'s, G> {
    ghost use Rattle.std.specs.Prelude.{◌≡◌, ℕ, List, length, drop};
    ghost use Rattle.guppy_search.specs.IxSet.{positions_from};

    ghost Value = { List ℕ };

    ghost view = { λ s. positions_from s.at (drop s.at s.set.now) };

    ghost invariant = { λ s. s.left ≡ length (positions_from s.at (drop s.at s.set.now)) };
}

impl<G: GraphSpec> Iterator for IxOnes<'_, G> {
    type Item = G::Ix;

    ghost use Rattle.std.specs.Prelude.{◌≡◌, Some, IfSome, length};
    ghost use Rattle.std.specs.Iterator.{YieldsFirstBy, UpTo, at_most, item_count};
    ghost use Rattle.std.specs.Iterator.SizeHint.{IsWithinCount};

    ghost next_gives = { YieldsFirstBy G.Ix.index_of (λ s. s) };

    ghost remaining = { item_count (λ s. s) };

    fn next(&mut self) -> Option<G::Ix> {
        let Some(position) = self.set.first_from(self.at) else {
            self.at = self.set.node_count();
            return None;
        };
        self.at = position + 1;
        self.left -= 1;
        Some(G::Ix::new(position))
    }

    fn size_hint(&self) -> (usize, Option<usize>)
        ensures lower { IsWithinCount result.0 (at_most (length self.now)) }
        ensures upper { IfSome result.1 (UpTo (at_most (length self.now))) }
        ensures exact { result ≡ (length self.now, Some (length self.now)) }
    {
        (self.left, Some(self.left))
    }
}

impl<G: GraphSpec> ExactSizeIterator for IxOnes<'_, G> {
    fn len(&self) -> usize {
        self.left
    }
}
