//! What is read, before records are made of it.
ghost use Rattle.std.specs.Prelude.{◌≡◌};
ghost use Rattle.guppy_metadata.specs.Key.{name_key};

use crate::sink::{LinkSink, PackageSink, ReadLinks};
use guppy_data::{DependencyKind, PackageRecord};
use json::Value;
use semver::{Version, VersionReq};

/// A dependency as a package declares it, with borrowed texts.
#[derive(Drop)]
pub(crate) struct Declared<'a> {
    /// The name of the package that is asked for.
    pub(crate) name: &'a str,
    /// That name's key.
    pub(crate) key: u32,
    /// The section that asks for it.
    pub(crate) section: DependencyKind,
    /// The name that the dependency has instead.
    pub(crate) rename: Option<&'a str>,
    /// The versions that are asked for.
    pub(crate) requirement: VersionReq,
    /// The platforms on which it is asked for, where not on all.
    pub(crate) target: Option<&'a str>,
    /// Whether it is there only where a feature switches it on.
    pub(crate) optional: bool,
    /// Whether its default features are asked for.
    pub(crate) default_features: bool,
    /// The features that are asked for, or none where details are left out.
    pub(crate) features: Vec<&'a str>,
    /// The registry that is asked for.
    pub(crate) registry: Option<&'a str>,
    /// The path that is asked for.
    pub(crate) path: Option<&'a str>,
    ghost keyed: { key ≡ name_key name.now },
}

impl<'a> Declared<'a> {
    ghost use Rattle.std.specs.Prelude.{◌≡◌, unwrap_or};
    ghost use Rattle.std.specs.Option.{option_copied};
    ghost use Rattle.guppy_metadata.specs.Fits.{takes};

    /// The dependency's name in the manifest.
    pub(crate) fn dep_name(&self) -> &'a str
        ensures { result.now ≡ unwrap_or (option_copied self.now.rename) self.now.name.now }
    {
        match self.rename {
            Some(rename) => rename,
            None => self.name,
        }
    }

    /// Whether the version may be taken; `*` takes each, a pre-release too.
    pub(crate) fn takes(&self, version: &Version) -> bool
        ensures { result ≡ takes self.now.requirement version.now }
    {
        self.requirement.comparators.is_empty() || self.requirement.matches(version)
    }
}

/// A package as the JSON tells it.
#[derive(Drop)]
pub(crate) struct Package<'a> {
    pub(crate) id: &'a str,
    /// Where it comes from, where that is told.
    pub(crate) source: Option<&'a str>,
    /// A copy of the name of its library, where it has one, which lies beside its record's texts.
    pub(crate) library: Option<String>,
    /// The dependencies that it declares.
    pub(crate) declared: Vec<Declared<'a>>,
    /// Its record, but for where it comes from.
    pub(crate) record: PackageRecord,
}

/// A section and the platforms that a resolved dependency is used for.
#[derive(Clone, Copy)]
pub(crate) struct Usage<'a> {
    pub(crate) section: DependencyKind,
    pub(crate) target: Option<&'a str>,
}

/// A resolved dependency.
#[derive(Drop)]
pub(crate) struct Resolved<'a> {
    /// Its name in the code.
    pub(crate) name: &'a str,
    /// The ID of the package that it is resolved to.
    pub(crate) id: &'a str,
    /// What it is used for.
    pub(crate) usages: Vec<Usage<'a>>,
}

/// What the members of a resolved dependency tell that were read.
#[derive(Drop)]
pub(crate) struct ResolvedParts<'a> {
    pub(crate) name: Option<&'a str>,
    pub(crate) id: Option<&'a str>,
    pub(crate) usages: Option<Vec<Usage<'a>>>,
}

/// What the members of a node's object tell that were read.
#[derive(Drop)]
pub(crate) struct Node<'a> {
    /// The ID of its package.
    pub(crate) from: Option<&'a str>,
    /// Whether its links were added.
    pub(crate) has_links: bool,
}

/// What the object of a package tells.
#[derive(Drop)]
pub(crate) struct Parts<'a> {
    pub(crate) declared: Option<Vec<Declared<'a>>>,
    /// Whether the build targets were read, of which only the library's name is kept. With details they are among
    /// the others.
    pub(crate) has_targets: bool,
    pub(crate) library: Option<&'a str>,
    /// All other members that are asked for.
    pub(crate) others: Vec<(&'a str, Value<'a>)>,
}

/// Packages that were read, each of which a sink was shown.
#[derive(Drop)]
pub(crate) struct Shown<'a, P: PackageSink> {
    pub(crate) sink: P,
    pub(crate) packages: Vec<Package<'a>>,
}

/// What the object of the whole JSON tells.
#[derive(Drop)]
pub(crate) struct Told<'a, P: PackageSink, S: LinkSink> {
    /// The packages; without what they declare, where the links were read.
    pub(crate) packages: Option<Shown<'a, P>>,
    /// The links of what is resolved.
    pub(crate) links: Option<ReadLinks<S>>,
    /// All other members.
    pub(crate) others: Vec<(&'a str, Value<'a>)>,
}
