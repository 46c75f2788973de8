//! Whether two graphs, two sets or two packages are the same.
ghost use Rattle.std.specs.Prelude.{◌≡◌, ◌↔◌, IsTrue, length};
ghost use Rattle.std.specs.Bool.{beq};
ghost use Rattle.std.specs.Cmp.Lexicographic.{pointwise};

use crate::metadata::PackageMetadata;
use crate::package_graph::PackageGraph;
use crate::set::PackageSet;
use guppy_core::{IndexType, PackageIx};
use guppy_data::PackageRecord;

impl PackageGraph {
    ghost use Rattle.guppy_graph.specs.Ids.{ids_of};

    /// Whether the other graph has the same packages: whether the lists of their IDs are equal,
    /// position by position.
    ///
    /// Time grows with the packages and the lengths of their IDs. Takes no memory.
    pub fn same_packages(&self, other: &PackageGraph) -> bool
        ensures { IsTrue result ↔ (ids_of self.now.packages ≡ ids_of other.now.packages) }
    {
        have_same_ids(self.dep_graph().nodes(), other.dep_graph().nodes())
    }
}

ghost use Rattle.guppy.specs.Same.{same_ids};

// Whether the lists of the packages' IDs are equal.
fn have_same_ids(packages: &[PackageRecord], others: &[PackageRecord]) -> bool
    ensures { result ≡ same_ids packages.now others.now }
{
    if packages.len() != others.len() {
        return false;
    }
    for (package, other) in packages.iter().zip(others) {
        if package.id != other.id {
            return false;
        }
    }
    true
}

impl<'g> PackageSet<'g> {
    ghost use Rattle.guppy_graph.specs.Ids.{ids_of};

    /// Whether the other set is of a graph with the same packages: whether the graphs' lists of
    /// package IDs are equal, position by position. It asks nothing of the members.
    ///
    /// Time grows with the packages and the lengths of their IDs. Takes no memory.
    pub fn same_packages(&self, other: &PackageSet<'_>) -> bool
        ensures { IsTrue result ↔ (ids_of self.now.graph.packages
            ≡ ids_of other.now.graph.packages) }
    {
        self.graph.same_packages(other.graph)
    }

    // Whether the same positions are in the sets.
    fn has_same_members(&self, other: &PackageSet<'_>) -> bool
        requires { length self.now.graph.packages ≡ length other.now.graph.packages }
        ensures { result ≡ pointwise beq self.now.included other.now.included }
    {
        let graph = self.graph.dep_graph();
        let included = self.core.included();
        let others = other.core.included();
        for position in 0..graph.node_count() {
            let ix = PackageIx::new(position);
            if included.contains(ix) != others.contains(ix) {
                return false;
            }
        }
        true
    }
}

/// The same members, of graphs with the same packages: their lists of package IDs are equal.
impl PartialEq for PackageSet<'_> {
    ghost use Rattle.std.specs.Cmp.Rules.{comparing};
    ghost use Rattle.std.proofs.Common.{rules};
    ghost use Rattle.guppy.specs.Same.{same_set};

    ghost eq = { same_set };

    ghost laws = { Prim.search (comparing, rules) depth 9 };

    fn eq(&self, other: &Self) -> bool {
        self.same_packages(other) && self.has_same_members(other)
    }
}

impl Eq for PackageSet<'_> {
    ghost use Rattle.std.specs.Cmp.Rules.{comparing};
    ghost use Rattle.std.proofs.Common.{rules};

    ghost laws = { Prim.search (comparing, rules) depth 9 };
}

/// The same position, in graphs with the same packages: their lists of package IDs are equal.
impl PartialEq for PackageMetadata<'_> {
    ghost use Rattle.std.specs.Cmp.Rules.{comparing};
    ghost use Rattle.std.proofs.Common.{rules};
    ghost use Rattle.guppy.specs.Same.{same_package};

    ghost eq = { same_package };

    ghost laws = { Prim.search (comparing, rules) depth 9 };

    fn eq(&self, other: &Self) -> bool {
        self.graph.same_packages(other.graph) && self.position == other.position
    }
}

impl Eq for PackageMetadata<'_> {
    ghost use Rattle.std.specs.Cmp.Rules.{comparing};
    ghost use Rattle.std.proofs.Common.{rules};

    ghost laws = { Prim.search (comparing, rules) depth 9 };
}
