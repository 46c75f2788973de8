ghost use Rattle.std.specs.Prelude.{◌≡◌, ◌↔◌, true, List, IsTrue, IfOk, Some};
ghost use Rattle.std.specs.List.{Any};
ghost use Rattle.std.specs.List.Sorted.{IsStrictlySortedBy};
ghost use Rattle.std.specs.Iterator.{IsFinite};
ghost use Rattle.std.specs.Iterator.Runs.{WholeRun};
ghost use Rattle.std.specs.Fmt.{DisplaysOnOk};
ghost use Rattle.guppy_data.specs.Sorted.{KeepsUpTo};
ghost use Rattle.guppy_data.specs.Texts.{joined_text};

use std::alloc::{AllocError, Global};
use std::fmt;
use std::marker::Model;

/// Different elements in ascending order. Contracts see the list of them.
#[derive(Debug, Drop)]
pub struct SortedSet<T: Ord + Drop> {
    items: Vec<T>,
}

impl<T: Ord + Drop> Model for SortedSet<T> {
    ghost Value = { List T };

    ghost view = { λ s. s.items.items };

    ghost invariant = { λ s. IsStrictlySortedBy T.cmp s.items.items };
}

impl<T: Ord + Drop> SortedSet<T> {
    /// The set of the elements of `items`, of equal ones one. Sorts in place, with of the order of
    /// n log n comparisons for n elements, and takes no memory.
    pub fn new(mut items: Vec<T>) -> Self
        ensures kept { KeepsUpTo T.eq items.items result }
        ensures sorted { IsStrictlySortedBy T.cmp result }
    {
        items.sort_unstable();
        items.dedup();
        SortedSet { items }
    }

    /// The set of what `items` gives up to its end, of equal elements one. The iterator has to end.
    /// Takes room for each item from `alloc`; where that is refused, the answer is `AllocError`. Then
    /// sorts as `new` does. Stands in the place of guppy's `from_iter`.
    pub fn from_items<I: Iterator<Item = T>>(alloc: Global, items: I) -> Result<Self, AllocError>
        requires can { I.can_next items }
        requires ends { IsFinite (I.remaining items) }
        ensures kept { IfOk result (λ set.
            WholeRun I.next_gives items (λ run. KeepsUpTo T.eq run.items set)) }
        ensures sorted { IfOk result (IsStrictlySortedBy T.cmp) }
    {
        Ok(SortedSet::new(items.collect(alloc)?))
    }

    /// Whether an element is equal to `item`, by binary search: of the order of log n comparisons for
    /// n elements, and no memory.
    pub fn contains(&self, item: &T) -> bool
        ensures { IsTrue result ↔ Any (λ x. T.eq x item.now ≡ true) self.now }
    {
        self.items.binary_search(item).is_ok()
    }

    /// The elements in ascending order. Stands in the place of guppy's `Deref`.
    pub fn as_slice(&self) -> &[T]
        ensures items { result.now ≡ self.now }
        ensures sorted { IsStrictlySortedBy T.cmp self.now }
    {
        self.items.as_slice()
    }

    /// The elements in ascending order, given up by the set. Takes no memory and constant time.
    pub fn into_inner(self) -> Vec<T>
        ensures items { result.items ≡ self }
        ensures sorted { IsStrictlySortedBy T.cmp self }
    {
        let SortedSet { items } = self;
        items
    }
}

impl<T: Ord + Drop> PartialEq for SortedSet<T> {
    ghost use Rattle.std.specs.Cmp.Rules.{comparing};
    ghost use Rattle.std.proofs.Common.{rules};
    ghost use Rattle.std.specs.Cmp.Lexicographic.{pointwise};

    ghost eq = { pointwise T.eq };

    ghost laws = { Prim.search (comparing, rules) };

    fn eq(&self, other: &Self) -> bool {
        self.items == other.items
    }
}

impl<T: Ord + Drop> Eq for SortedSet<T> {
    ghost use Rattle.std.specs.Cmp.Rules.{comparing};
    ghost use Rattle.std.proofs.Common.{rules};

    ghost laws = { Prim.search (comparing, rules) };
}

impl fmt::Display for SortedSet<String> {
    ghost use Rattle.guppy_data.specs.Texts.{set_text};

    ghost output = { λ s. Some (set_text s) };

    fn fmt<W: fmt::Write>(&self, f: &mut fmt::Formatter<W>) -> fmt::Result {
        f.write_str("{")?;
        write_joined(self.as_slice(), f)?;
        f.write_str("}")
    }
}

fn write_joined<W: fmt::Write>(names: &[String], f: &mut fmt::Formatter<W>) -> fmt::Result
    ensures { DisplaysOnOk W.write_str_gives f.old result (Some (joined_text names.now)) f.new }
{
    if let Some((first, rest)) = names.split_first() {
        f.write_str(first)?;
        for name in rest {
            write!(f, ", {name}")?;
        }
    }
    Ok(())
}
