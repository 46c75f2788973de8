ghost use Rattle.std.specs.Prelude.{◌≡◌};
ghost use Rattle.std.specs.Option.{option_copied};
ghost use Rattle.guppy_data.specs.BuildTargetId.{rank_of, id_name, name_or_empty, recorded_id, seen_id};

use crate::records::OwnedBuildTargetId;
use std::cmp::Ordering;
use std::hash::{Hash, Hasher};

/// What a build target is, and its name where it has one of its own: no two targets of a package
/// have the same ID.
///
/// IDs ascend in the order of the declaration, `Library` first, and two of one variant by the bytes
/// of their names. No call takes memory; comparing and hashing take time linear in the names.
#[derive(Clone, Copy, Debug)]
pub enum BuildTargetId<'g> {
    /// The library.
    Library,
    /// The build script.
    BuildScript,
    /// A binary of this name.
    Binary(&'g str),
    /// An example of this name.
    Example(&'g str),
    /// A test of this name.
    Test(&'g str),
    /// A benchmark of this name.
    Benchmark(&'g str),
}

impl<'g> BuildTargetId<'g> {
    /// The view of a recorded ID.
    pub fn new(id: &'g OwnedBuildTargetId) -> Self
        ensures { seen_id result ≡ recorded_id id.now }
    {
        match id {
            OwnedBuildTargetId::Library => BuildTargetId::Library,
            OwnedBuildTargetId::BuildScript => BuildTargetId::BuildScript,
            OwnedBuildTargetId::Binary(name) => BuildTargetId::Binary(name.as_str()),
            OwnedBuildTargetId::Example(name) => BuildTargetId::Example(name.as_str()),
            OwnedBuildTargetId::Test(name) => BuildTargetId::Test(name.as_str()),
            OwnedBuildTargetId::Benchmark(name) => BuildTargetId::Benchmark(name.as_str()),
        }
    }

    /// The name in the ID; of a library and a build script `None`.
    pub fn name(self) -> Option<&'g str>
        ensures { option_copied result ≡ id_name (seen_id self.entry) }
    {
        match self {
            BuildTargetId::Library | BuildTargetId::BuildScript => None,
            BuildTargetId::Binary(name)
            | BuildTargetId::Example(name)
            | BuildTargetId::Test(name)
            | BuildTargetId::Benchmark(name) => Some(name),
        }
    }

    /// The place of the variant in the declaration.
    fn rank(self) -> u8
        ensures { result ≡ rank_of (seen_id self.entry) }
    {
        match self {
            BuildTargetId::Library => 0,
            BuildTargetId::BuildScript => 1,
            BuildTargetId::Binary(_) => 2,
            BuildTargetId::Example(_) => 3,
            BuildTargetId::Test(_) => 4,
            BuildTargetId::Benchmark(_) => 5,
        }
    }

    /// The name in the ID, empty where there is none.
    fn name_or_empty(self) -> &'g str
        ensures { result.now ≡ name_or_empty (seen_id self.entry) }
    {
        self.name().unwrap_or("")
    }
}

impl Ord for BuildTargetId<'_> {
    ghost use Rattle.std.specs.Ordering.{on};
    ghost use Rattle.std.specs.Cmp.Rules.{comparing};
    ghost use Rattle.std.proofs.Common.{rules};
    ghost use Rattle.guppy_data.specs.BuildTargetId.{seen_id, target_id_cmp};

    ghost cmp = { on seen_id target_id_cmp };

    ghost total = { Prim.search (comparing, rules) depth 9 };

    ghost matches_partial_cmp = { Prim.search (comparing, rules) };

    ghost matches_eq = { Prim.search (comparing, rules) };

    fn cmp(&self, other: &Self) -> Ordering {
        match self.rank().cmp(&other.rank()) {
            Ordering::Equal => self.name_or_empty().cmp(other.name_or_empty()),
            order => order,
        }
    }
}

impl PartialOrd for BuildTargetId<'_> {
    ghost use Rattle.std.specs.Ordering.{on, as_partial_cmp};
    ghost use Rattle.std.specs.Cmp.{partial_order_from_own_ties};
    ghost use Rattle.std.specs.Cmp.Rules.{comparing};
    ghost use Rattle.std.proofs.Common.{rules};
    ghost use Rattle.guppy_data.specs.BuildTargetId.{seen_id, target_id_cmp};

    ghost partial_cmp = { as_partial_cmp (on seen_id target_id_cmp) };

    ghost laws = { partial_order_from_own_ties (Prim.search (comparing, rules) depth 9)
        (Prim.search (comparing, rules) depth 9) };

    fn partial_cmp(&self, other: &Self) -> Option<Ordering> {
        Some(self.cmp(other))
    }
}

impl PartialEq for BuildTargetId<'_> {
    ghost use Rattle.std.specs.Ordering.{on, eq_by_cmp};
    ghost use Rattle.std.specs.Cmp.Rules.{comparing};
    ghost use Rattle.std.proofs.Common.{rules};
    ghost use Rattle.guppy_data.specs.BuildTargetId.{seen_id, target_id_cmp};

    ghost eq = { eq_by_cmp (on seen_id target_id_cmp) };

    ghost laws = { Prim.search (comparing, rules) depth 9 };

    fn eq(&self, other: &Self) -> bool {
        self.cmp(other).is_eq()
    }
}

impl Eq for BuildTargetId<'_> {
    ghost use Rattle.std.specs.Cmp.Rules.{comparing};
    ghost use Rattle.std.proofs.Common.{rules};

    ghost laws = { Prim.search (comparing, rules) depth 9 };
}

impl Hash for BuildTargetId<'_> {
    ghost use Rattle.guppy_data.specs.BuildTargetId.{seen_id, target_id_hash};
    ghost use Rattle.guppy_data.specs.SameTargetId.{hashed_alike};

    ghost hash_input = { λ id. target_id_hash (seen_id id) };

    ghost respects_eq = { λ a b equal. hashed_alike (seen_id a) (seen_id b) equal };

    fn hash<H: Hasher>(&self, state: &mut H) {
        state.write_u8(self.rank());
        self.name_or_empty().hash(state);
    }
}
