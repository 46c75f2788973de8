//! Visitors, each with its meaning: what it answers at each state, and the state that it leaves.
ghost use Rattle.std.specs.Prelude.{◌≡◌, ◌⊎◌, ◌==◌, ◌||◌, ℕ, ◌+◌, ◌-◌, ◌%◌, ◌^◌, Bool, true, false, not, max, nat_lt, List, length, slice_get, slice_index_or, IfOk, IsSomeAnd};
ghost use Rattle.guppy_search.specs.IxSet.{IsIn};
ghost use Rattle.guppy_search.specs.Links.{far_end};
ghost use Rattle.guppy_search.specs.Resolve.{JudgesResolve, LeavesOne};
ghost use Rattle.guppy_graph.specs.DevOnly.{is_dev_only};
ghost use Rattle.guppy.specs.Views.{link_data};

use guppy::graph::Packages;
use guppy::positions::{DependencyDirection, IxSet};
use guppy::{Error, PackageLink, PackageLinkContext, PackageLinkVisitor, PackageQuery, PackageSet};

/// Accepts the links at whose numbers the list is true. None stands beyond its end.
#[derive(Drop)]
pub(super) struct ByPattern<'p> {
    pub(super) pattern: &'p [bool],
}

impl PackageLinkVisitor for ByPattern<'_> {
    ghost visits = { λ s _ link answer t. (answer ≡ slice_index_or s.pattern.now link.number false)
        × (t.pattern ≡ s.pattern) };

    fn visit_link(&mut self, _cx: &PackageLinkContext<'_>, link: PackageLink<'_>) -> bool {
        match self.pattern.get(link.link_ix()) {
            Some(is_open) => *is_open,
            None => false,
        }
    }
}

/// Accepts its first calls, so many.
#[derive(Drop)]
pub(super) struct First {
    pub(super) left: usize,
}

impl PackageLinkVisitor for First {
    ghost visits = { λ s _ _ answer t. (answer ≡ nat_lt 0 s.left) × (t.left ≡ s.left - 1) };

    fn visit_link(&mut self, _cx: &PackageLinkContext<'_>, _link: PackageLink<'_>) -> bool {
        let answer = 0 < self.left;
        self.left = self.left.saturating_sub(1);
        answer
    }
}

/// Accepts its odd calls, and counts them all.
#[derive(Drop)]
pub(super) struct Odd {
    pub(super) calls: usize,
}

impl PackageLinkVisitor for Odd {
    ghost visits = { λ s _ _ answer t. (t.calls ≡ (s.calls + 1) % 2 ^ 64)
        × (answer ≡ (t.calls % 2 == 1)) };

    fn visit_link(&mut self, _cx: &PackageLinkContext<'_>, _link: PackageLink<'_>) -> bool {
        self.calls = self.calls.wrapping_add(1);
        self.calls % 2 == 1
    }
}

/// How many links the query shows where every second one is accepted: what the visitor has counted.
pub(super) fn odd_calls(query: PackageQuery<'_>) -> Result<usize, Error>
    ensures { IfOk result (λ calls. (trace : List (ℕ × Bool)) × (set : List Bool)
        × JudgesResolve query.entry.direction query.entry.graph.links query.entry.initials trace set
        × (calls ≡ length trace % 2 ^ 64)) }
{
    let mut visitor = Odd { calls: 0 };
    let _set = query.resolve_with_mut(&mut visitor)?;
    Ok(visitor.calls)
}

/// What the query includes over the links with even numbers. The closure keeps the set of the packages
/// that these lead to, and is owed links that leave one of these, or one that the query starts at.
pub(super) fn over_even_links<'g>(query: PackageQuery<'g>) -> Result<PackageSet<'g>, Error> {
    let graph = query.graph();
    let mut led_to = IxSet::<Packages>::empty(graph.alloc(), graph.package_count())?;
    query.resolve_with_fn(
        |cx, link|
            requires leaves { LeavesOne cx.now.direction (link_data link).graph.links
                (λ p. IsIn cx.now.initials p ⊎ IsIn led_to p) (link_data link).number }
            requires count { length led_to ≡ length (link_data link).graph.packages }
            ensures count { length led_to.exit ≡ length led_to.entry }
            ensures kept { (p : ℕ) → IsIn led_to.entry p → IsIn led_to.exit p }
            ensures followed { result ≡ true → IsSomeAnd
                (slice_get (link_data link.entry).graph.links (link_data link.entry).number)
                (λ l. IsIn led_to.exit (far_end cx.now.direction l)) }
        {
            let is_even = link.link_ix() % 2 == 0;
            if is_even {
                let (from, to) = link.endpoints();
                let end = match cx.direction() {
                    DependencyDirection::Forward => to,
                    DependencyDirection::Reverse => from,
                };
                led_to.insert(end.package_ix());
            }
            is_even
        },
    )
}

/// Accepts the links that are there for development alone.
#[derive(Drop)]
pub(super) struct DevOnly;

impl PackageLinkVisitor for DevOnly {
    ghost visits = { λ _ _ link answer _. IsSomeAnd (slice_get link.graph.links link.number)
        (λ l. answer ≡ is_dev_only l.edge) };

    fn visit_link(&mut self, _cx: &PackageLinkContext<'_>, link: PackageLink<'_>) -> bool {
        link.dev_only()
    }
}

/// Accepts the links with a number above all those that it was shown before, and above the one that it
/// has at first.
#[derive(Drop)]
pub(super) struct Rising {
    pub(super) highest: usize,
}

impl PackageLinkVisitor for Rising {
    ghost visits = { λ s _ link answer t. (answer ≡ nat_lt s.highest link.number)
        × (t.highest ≡ max s.highest link.number) };

    fn visit_link(&mut self, _cx: &PackageLinkContext<'_>, link: PackageLink<'_>) -> bool {
        let answer = self.highest < link.link_ix();
        self.highest = self.highest.max(link.link_ix());
        answer
    }
}

/// Refuses the first link to the package d, and no other.
#[derive(Drop)]
pub(super) struct RefusesOnce {
    pub(super) has_refused: bool,
}

impl PackageLinkVisitor for RefusesOnce {
    ghost visits = { λ s _ _ answer t. (s.has_refused ≡ true → answer ≡ true)
        × (t.has_refused ≡ (s.has_refused || not answer)) };

    fn visit_link(&mut self, _cx: &PackageLinkContext<'_>, link: PackageLink<'_>) -> bool {
        if self.has_refused || link.to().name() != "d" {
            return true;
        }
        self.has_refused = true;
        false
    }
}
