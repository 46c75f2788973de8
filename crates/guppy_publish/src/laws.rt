//! Laws on the links by which packages need each other to be published, each stated by the contract of a function.
ghost use Rattle.std.specs.Prelude.{◌↔◌, ◌⊎◌, List, Contains};
ghost use Rattle.guppy_data.specs.declared.records.LinkRecord.{LinkRecord};
ghost use Rattle.guppy_publish.specs.Needs.{Pair, AreNeeds, IsFirmlyLinked};

/// Of these links, one that isn't dev-only leads from a package to another exactly where one did before, or the one is
/// declared to depend on the other.
pub fn needs_are_links_or_declared()
    ensures { (declared : List Pair) (links needs : List LinkRecord) → AreNeeds declared links needs
        → (pair : Pair) → IsFirmlyLinked needs pair ↔ (IsFirmlyLinked links pair ⊎ Contains declared pair) }
{}
