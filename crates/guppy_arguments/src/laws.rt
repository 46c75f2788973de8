//! Laws on what is printed for packages, each stated by the contract of a function.
ghost use Rattle.std.specs.Prelude.{◌≡◌, ℕ, List, [], ◌∷◌, true, map};
ghost use Rattle.guppy_data.specs.declared.records.PackageRecord.{PackageRecord};
ghost use Rattle.guppy_command.specs.Ids.{has_id};
ghost use Rattle.guppy_arguments.specs.Names.{meant, text};
ghost use Rattle.guppy_arguments.specs.Table.{command_names, usages};

/// What is printed for a package means this package alone.
pub fn printed_reads_back()
    ensures { (packages : List PackageRecord) (id : List ℕ) → has_id id packages ≡ true →
        meant packages (text packages id) ≡ id ∷ [] }
{}

/// What is printed for two packages differs, unless they have one ID.
pub fn printed_apart()
    ensures { (packages : List PackageRecord) (first second : List ℕ) →
        has_id first packages ≡ true → has_id second packages ≡ true →
        text packages first ≡ text packages second → first ≡ second }
{}

/// Each command has a usage.
pub fn commands_have_usages()
    ensures { map (λ usage. usage.0) usages ≡ command_names }
{}
