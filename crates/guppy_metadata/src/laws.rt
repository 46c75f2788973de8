//! Laws on what is read, each stated by the contract of a function.
ghost use Rattle.std.specs.Prelude.{◌≡◌, ◌≢◌, [], true};
ghost use Rattle.guppy_metadata.specs.declared.types.Declared.{Declared};
ghost use Rattle.guppy_metadata.specs.declared.types.Resolved.{Resolved};
ghost use Rattle.guppy_metadata.specs.declared.types.Package.{Package};
ghost use Rattle.guppy_metadata.specs.Fits.{fits, in_code, used_name};

/// Of two declared dependencies with different names in the code, at most one was resolved to another package that has
/// a name there.
pub fn fits_one_name()
    ensures { (asking needed : Package) (resolved : Resolved) (x y : Declared) →
        asking.id.now ≢ resolved.id.now → resolved.name.now ≢ [] →
        fits asking resolved needed x ≡ true → fits asking resolved needed y ≡ true →
        in_code (used_name x needed) ≡ in_code (used_name y needed) }
{}
