//! Which declared dependencies were resolved to one.
ghost use Rattle.std.specs.Prelude.{◌≡◌, [], true, false, filter, string_bytes, slice_get, Some, IfSome};
ghost use Rattle.std.specs.Str.{bytes_eq};
ghost use Rattle.guppy_metadata.specs.declared.types.Declared.{Declared};
ghost use Rattle.guppy_metadata.specs.Fits.{stands_for, is_named, has_name, same_usage, is_used, suits, are_together, is_alone, fits, is_matched, are_matched};
ghost use Rattle.guppy_metadata.specs.Key.{name_key};

use crate::types::{Declared, Package, Resolved, Usage};

/// What declared dependencies are held against: a dependency of the package `asking`, which has the ID `from`, that was
/// resolved to the needed package.
#[derive(Drop)]
pub(crate) struct Wanted<'w, 'r, 'p> {
    pub(crate) from: &'w str,
    pub(crate) asking: &'w Package<'p>,
    pub(crate) resolved: &'w Resolved<'r>,
    pub(crate) needed: &'w Package<'p>,
    // the key of the needed package's name
    pub(crate) key: u32,
    ghost keyed: { key ≡ name_key (string_bytes needed.now.record.name) },
}

// Whether a letter of a name stands for this one in the code, as `-` does for `_`.
fn stands_for(letter: u8, in_code: u8) -> bool
    ensures { result ≡ stands_for letter in_code }
{
    letter == in_code || letter == b'-' && in_code == b'_'
}

// Whether a name is the name in the code, where `_` stands for each `-`.
fn is_named(name: &[u8], in_code: &[u8]) -> bool
    ensures { result ≡ is_named name.now in_code.now }
{
    if name.len() != in_code.len() {
        return false;
    }
    for (index, letter) in name.iter().enumerate() {
        if !stands_for(*letter, in_code[index]) {
            return false;
        }
    }
    true
}

// Whether the declared dependency, where it is the package, has the resolved name. A dependency on what is
// no library is resolved with no name.
fn has_name(declared: &Declared<'_>, needed: &Package<'_>, in_code: &str) -> bool
    ensures { result ≡ has_name declared.now needed.now in_code.now }
{
    let name = match (declared.rename, &needed.library) {
        (Some(rename), _) => rename,
        (None, Some(library)) => library.as_str(),
        (None, None) => declared.name,
    };
    in_code.is_empty() || is_named(name.as_bytes(), in_code.as_bytes())
}

fn is_same_usage(declared: &Declared<'_>, usage: &Usage<'_>) -> bool
    ensures { result ≡ same_usage declared.now usage.now }
{
    usage.section == declared.section && usage.target == declared.target
}

fn is_used(declared: &Declared<'_>, usages: &[Usage<'_>]) -> bool
    ensures { result ≡ is_used declared.now usages.now }
{
    for usage in usages {
        if is_same_usage(declared, usage) {
            return true;
        }
    }
    false
}

// Whether the dependency asks for a package of this name. The names' keys are compared first, which lie beside the
// names' places.
#[inline(always)]
fn asks_for_name(declared: &Declared<'_>, wanted: &Wanted<'_, '_, '_>) -> bool
    ensures { result ≡ bytes_eq declared.now.name.now (string_bytes wanted.now.needed.now.record.name) }
{
    declared.key == wanted.key && declared.name == wanted.needed.record.name.as_str()
}

// Whether the dependency is one on the needed package, but for the version. One on the asking package itself is
// resolved with the name of its library, whatever its own is.
#[inline(always)]
fn suits(declared: &Declared<'_>, wanted: &Wanted<'_, '_, '_>) -> bool
    ensures { result ≡ suits wanted.now.asking.now wanted.now.resolved.now wanted.now.needed.now declared.now }
{
    asks_for_name(declared, wanted)
        && (has_name(declared, wanted.needed, wanted.resolved.name)
            || wanted.asking.id == wanted.resolved.id)
        && is_used(declared, wanted.resolved.usages.as_slice())
}

// Whether two dependencies are of one section and for the same platforms.
fn are_together(one: &Declared<'_>, other: &Declared<'_>) -> bool
    ensures { result ≡ are_together one.now other.now }
{
    one.section == other.section && one.target == other.target
}

// Whether of its section and platforms the dependency alone suits.
fn is_alone(declared: &Declared<'_>, wanted: &Wanted<'_, '_, '_>) -> bool
    ensures { result ≡ is_alone wanted.now.asking.now wanted.now.resolved.now wanted.now.needed.now declared.now }
{
    let all = &wanted.asking.declared;
    let rivals = all.iter().filter(|other| are_together(other, declared) && suits(other, wanted));
    rivals.count() == 1
}

/// Whether what a package declares is among the dependencies that were resolved to this one. A version that its
/// requirement doesn't take comes from an override of paths or from a registry that says otherwise.
#[inline(always)]
pub(crate) fn fits(declared: &Declared<'_>, wanted: &Wanted<'_, '_, '_>) -> bool
    ensures { result ≡ fits wanted.now.asking.now wanted.now.resolved.now wanted.now.needed.now declared.now }
{
    suits(declared, wanted)
        && (declared.takes(&wanted.needed.record.version) || is_alone(declared, wanted))
}

// Whether the usage is that of one of the declared dependencies that were resolved so, as the first one was.
fn is_matched(usage: &Usage<'_>, declared: &[Declared<'_>], wanted: &Wanted<'_, '_, '_>) -> bool
    requires { IfSome (slice_get declared.now 0)
        (λ first. fits wanted.now.asking.now wanted.now.resolved.now wanted.now.needed.now first ≡ true) }
    ensures { result
        ≡ is_matched wanted.now.asking.now wanted.now.resolved.now wanted.now.needed.now declared.now usage.now }
{
    for (index, dependency) in declared.iter().enumerate() {
        if is_same_usage(dependency, usage) && (index == 0 || fits(dependency, wanted)) {
            return true;
        }
    }
    false
}

/// Whether each usage is.
pub(crate) fn are_matched(
    usages: &[Usage<'_>],
    declared: &[Declared<'_>],
    wanted: &Wanted<'_, '_, '_>,
) -> bool
    requires { IfSome (slice_get declared.now 0)
        (λ first. fits wanted.now.asking.now wanted.now.resolved.now wanted.now.needed.now first ≡ true) }
    ensures { result
        ≡ are_matched wanted.now.asking.now wanted.now.resolved.now wanted.now.needed.now declared.now usages.now }
{
    for usage in usages {
        if !is_matched(usage, declared, wanted) {
            return false;
        }
    }
    true
}

/// The declared dependencies from the first one on that was resolved to the package.
pub(crate) fn from_first_fitting<'d, 'a>(
    declared: &'d [Declared<'a>],
    wanted: &Wanted<'_, '_, '_>,
) -> &'d [Declared<'a>]
    ensures all { filter (fits wanted.now.asking.now wanted.now.resolved.now wanted.now.needed.now) result.now
        ≡ filter (fits wanted.now.asking.now wanted.now.resolved.now wanted.now.needed.now) declared.now }
    ensures first { IfSome (slice_get result.now 0)
        (λ first. fits wanted.now.asking.now wanted.now.resolved.now wanted.now.needed.now first ≡ true) }
{
    for (index, dependency) in declared.iter().enumerate() {
        if fits(dependency, wanted) {
            return &declared[index..];
        }
    }
    &[]
}
