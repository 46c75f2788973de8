//! What is said of a package.
use guppy_data::PackageId;

/// A section of a manifest.
#[derive(Clone, Copy, Debug, PartialEq, Eq, PartialOrd, Ord)]
pub(crate) enum Section {
    Normal,
    Build,
    Development,
}

/// What is needed in a section: the package with the ID, under the name in the manifest.
#[derive(Clone, Copy, Debug, PartialEq, Eq, PartialOrd, Ord)]
pub(crate) struct Need<'a> {
    pub section: Section,
    pub to: &'a PackageId,
    pub name: &'a str,
}

/// What is said of a package.
#[derive(Clone, Copy, Debug, PartialEq, Eq, PartialOrd, Ord)]
pub(crate) enum Mark<'a> {
    /// It needs this.
    Needs(Need<'a>),
    /// There it asks for the default features.
    AsksForDefaults(Need<'a>),
    /// There it asks for the feature of the name.
    AsksFor(Need<'a>, &'a str),
    /// It is built for the platform.
    BuiltFor(&'a str),
    /// Its feature of the second name is on on the platform of the first.
    BuiltWith(&'a str, &'a str),
}

/// A mark of the package with the ID.
#[derive(Clone, Copy, Debug, PartialEq, Eq, PartialOrd, Ord)]
pub(crate) struct MarkOf<'a> {
    pub id: &'a PackageId,
    pub mark: Mark<'a>,
}
