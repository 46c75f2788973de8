//! Laws on what changes a package, each stated by the contract of a function.
ghost use Rattle.std.specs.Prelude.{◌≡◌, ◌≢◌, ◌↔◌, ℕ, List, [], Contains, map};
ghost use Rattle.guppy_data.specs.declared.records.LinkRecord.{LinkRecord};
ghost use Rattle.guppy_graph.specs.Graph.{GraphData};
ghost use Rattle.guppy_graph.specs.Ids.{IsKnown, ids_of};
ghost use Rattle.guppy_built.specs.Rows.{Row};
ghost use Rattle.guppy_changes.specs.Changes.{AreOthers, IsUnchanged, State, edges};

/// Where nothing changed, no package did: compared with itself, a state has no other packages.
pub fn same_state()
    ensures { (s : State) (ids : List (List ℕ)) → AreOthers (IsUnchanged s s) (ids_of s.graph.packages) ids → ids ≡ [] }
{}

/// What is said of others counts for nothing: a package that was there is unchanged where the links from it are the
/// same, and the rows of it. So a package that comes, or goes, and that nothing needed, changes no other.
pub fn others_count_for_nothing()
    ensures { (before now : State) (id : List ℕ) → IsKnown before.graph.packages id
        → ((l : LinkRecord) → l.from ≡ id → Contains (edges before.graph.links) l ↔ Contains (edges now.graph.links) l)
        → ((row : Row) → row.id ≡ id → Contains before.rows row ↔ Contains now.rows row)
        → IsUnchanged before now id }
{}

/// A package that wasn't there is changed.
pub fn new_packages_change()
    ensures { (before now : State) (id : List ℕ) → ¬ IsKnown before.graph.packages id → ¬ IsUnchanged before now id }
{}
