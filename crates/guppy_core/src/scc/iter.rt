ghost use Rattle.std.specs.Prelude.{◌≡◌};

use guppy_search::{DependencyDirection, IndexType};
use std::marker::Model;

/// The components that are still to come, in their order. Its `len` and its `size_hint` are exact.
#[derive(Drop)]
pub struct AllSccs<'s, Ix: IndexType> {
    pub(crate) positions: &'s [Ix],
    pub(crate) bounds: &'s [usize],
}

impl<'s, Ix: IndexType> Model for AllSccs<'s, Ix> {
    ghost use Rattle.std.specs.Prelude.{List, ℕ, map, length};
    ghost use Rattle.guppy_core.specs.Sccs.{parts, AreBounds};

    ghost Value = { List (List ℕ) };

    ghost view = { λ s. parts s.bounds.now (map Ix.index_of s.positions.now) };

    ghost invariant = { λ s. AreBounds s.bounds.now (length s.positions.now) };
}

impl<'s, Ix: IndexType> Iterator for AllSccs<'s, Ix> {
    type Item = &'s [Ix];

    ghost use Rattle.std.specs.Prelude.{◌≡◌, Some, IfSome, length, map};
    ghost use Rattle.std.specs.Iterator.{YieldsFirstBy, UpTo, at_most, item_count};
    ghost use Rattle.std.specs.Iterator.SizeHint.{IsWithinCount};

    ghost next_gives = { YieldsFirstBy (λ component. map Ix.index_of component.now) (λ s. s) };

    ghost remaining = { item_count (λ s. s) };

    fn next(&mut self) -> Option<&'s [Ix]> {
        let (start, rest) = self.bounds.split_first()?;
        let start = *start;
        let end = *rest.first()?;
        self.bounds = rest;
        Some(&self.positions[start..end])
    }

    fn size_hint(&self) -> (usize, Option<usize>)
        ensures lower { IsWithinCount result.0 (at_most (length self.now)) }
        ensures upper { IfSome result.1 (UpTo (at_most (length self.now))) }
        ensures exact { result ≡ (length self.now, Some (length self.now)) }
    {
        let len = self.bounds.len().saturating_sub(1);
        (len, Some(len))
    }
}

impl<'s, Ix: IndexType> DoubleEndedIterator for AllSccs<'s, Ix> {
    ghost use Rattle.std.specs.Prelude.{map};
    ghost use Rattle.std.specs.Iterator.{YieldsLastBy};

    ghost next_back_gives = { YieldsLastBy (λ component. map Ix.index_of component.now) (λ s. s) };

    fn next_back(&mut self) -> Option<&'s [Ix]> {
        let (end, rest) = self.bounds.split_last()?;
        let end = *end;
        let start = *rest.last()?;
        self.bounds = rest;
        Some(&self.positions[start..end])
    }
}

impl<Ix: IndexType> ExactSizeIterator for AllSccs<'_, Ix> {
    fn len(&self) -> usize {
        self.bounds.len().saturating_sub(1)
    }
}

/// The positions that are still to come, in the order of the components or from its end. Its `len`
/// and its `size_hint` are exact.
#[derive(Drop)]
pub struct NodeIter<'s, Ix: IndexType> {
    pub(crate) left: &'s [Ix],
    pub(crate) direction: DependencyDirection,
}

impl<'s, Ix: IndexType> Model for NodeIter<'s, Ix> {
    ghost use Rattle.std.specs.Prelude.{map};
    ghost use Rattle.guppy_core.specs.Sccs.{NodesLeft, listed};

    ghost Value = { NodesLeft };

    ghost view = { λ s. record {
      direction = s.direction;
      left = listed s.direction
          (map Ix.index_of s.left.now);
    } };
}

impl<'s, Ix: IndexType> NodeIter<'s, Ix> {
    /// The direction in which the positions come.
    pub fn direction(&self) -> DependencyDirection
        ensures { result ≡ self.now.direction }
    {
        self.direction
    }
}

impl<'s, Ix: IndexType> Iterator for NodeIter<'s, Ix> {
    type Item = Ix;

    ghost use Rattle.std.specs.Prelude.{◌≡◌, ⊤, Some, IfSome, length};
    ghost use Rattle.std.specs.Iterator.{YieldsFirstBy, MakesProgress, UpTo, at_most, item_count};
    ghost use Rattle.std.specs.Iterator.SizeHint.{IsWithinCount};

    ghost next_gives = { YieldsFirstBy Ix.index_of (λ s. s.left) };

    ghost remaining = { item_count (λ s. s.left) };

    fn next(&mut self) -> Option<Ix>
        ensures steps { YieldsFirstBy Ix.index_of (λ s. s.left) self.old result self.new }
        ensures goes { MakesProgress (λ _. ⊤) (item_count (λ s. s.left)) self.old result self.new }
        ensures direction { self.new.direction ≡ self.old.direction }
    {
        let (ix, left) = match self.direction {
            DependencyDirection::Forward => self.left.split_first()?,
            DependencyDirection::Reverse => self.left.split_last()?,
        };
        self.left = left;
        Some(*ix)
    }

    fn size_hint(&self) -> (usize, Option<usize>)
        ensures lower { IsWithinCount result.0 (at_most (length self.now.left)) }
        ensures upper { IfSome result.1 (UpTo (at_most (length self.now.left))) }
        ensures exact { result ≡ (length self.now.left, Some (length self.now.left)) }
    {
        (self.left.len(), Some(self.left.len()))
    }
}

impl<Ix: IndexType> ExactSizeIterator for NodeIter<'_, Ix> {
    fn len(&self) -> usize {
        self.left.len()
    }
}
