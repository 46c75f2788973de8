//! The IDs of packages copied behind one another. Those in the records lie far apart, and each end of each link is
//! compared with one of them.
ghost use Rattle.std.specs.Prelude.{◌≡◌, IfOk, map, Some};
ghost use Rattle.std.specs.List.{flat_map};
ghost use Rattle.std.specs.Option.{option_copied};
ghost use Rattle.std.specs.String.{string_bytes};

use guppy_data::PackageRecord;
use std::alloc::{AllocError, Global};

/// The IDs, one behind the other.
pub(crate) fn joined_ids(alloc: Global, packages: &[PackageRecord]) -> Result<String, AllocError>
    ensures { IfOk result (λ joined. string_bytes joined ≡ flat_map (λ r. r.id) packages.now) }
{
    let mut joined = String::new(alloc);
    for package in packages {
        joined.push_str(package.id.repr())?;
    }
    Ok(joined)
}

/// The IDs, each a part of the text in which they stand one behind the other.
pub(crate) fn ids_in<'a>(
    alloc: Global,
    packages: &[PackageRecord],
    joined: &'a str,
) -> Result<Vec<Option<&'a str>>, AllocError>
    requires { joined.now ≡ flat_map (λ r. r.id) packages.now }
    ensures { IfOk result (λ ids. map option_copied ids.items ≡ map (λ r. Some r.id) packages.now) }
{
    let mut ids = Vec::with_capacity(alloc, packages.len())?;
    let mut rest = joined;
    for package in packages {
        let (id, behind) = rest.split_at(package.id.repr().len());
        ids.push(Some(id))?;
        rest = behind;
    }
    Ok(ids)
}
