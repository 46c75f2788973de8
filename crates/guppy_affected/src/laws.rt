//! Laws on folders that are given to packages, and on packages of which it is told, each stated by the contract of a function.
ghost use Rattle.std.specs.Prelude.{◌↔◌, ◌⊎◌, ℕ, List, [], Contains};
ghost use Rattle.guppy_graph.specs.Graph.{GraphData};
ghost use Rattle.guppy_affected.specs.Affected.{IsAffected, IsAffectedAfter};
ghost use Rattle.guppy_affected.specs.Folders.{Given, Belongs, IsBelow, IsElsewhere, Changes};

/// Where none is given, a path changes exactly the packages that it belongs to, that lie below it, and that name a
/// target where it leads.
pub fn none_given()
    ensures { (g : GraphData) (path : List ℕ) (p : ℕ) → Changes g [] path p
        ↔ (Belongs g.packages path p ⊎ (IsBelow g.packages path p ⊎ IsElsewhere g path p)) }
{}

/// What is given takes no member away: those that changes affect where none is given they affect anyway.
pub fn given_add()
    ensures { (g : GraphData) (paths ignored : List (List ℕ)) (also : List Given) (p : ℕ)
        → IsAffected g paths ignored [] p → IsAffected g paths ignored also p }
{}

/// Where no package is told of, exactly those are affected that the paths affect.
pub fn none_changed()
    ensures { (g : GraphData) (paths ignored : List (List ℕ)) (also : List Given) (p : ℕ)
        → IsAffectedAfter g [] paths ignored also p ↔ IsAffected g paths ignored also p }
{}

/// What is told of adds: those that the paths affect are affected anyway, and of packages of which it is told those
/// members that are tested with one.
pub fn changed_add()
    ensures { (g : GraphData) (changed more paths ignored : List (List ℕ)) (also : List Given) (p : ℕ)
        → ((id : List ℕ) → Contains changed id → Contains more id)
        → IsAffectedAfter g changed paths ignored also p → IsAffectedAfter g more paths ignored also p }
{}
