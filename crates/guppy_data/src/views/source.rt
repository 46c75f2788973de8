ghost use Rattle.std.specs.Prelude.{◌≡◌, ◌↔◌, IsTrue, IsSome, IsNone, Some, codes};
ghost use Rattle.std.specs.Option.{option_copied, option_map};
ghost use Rattle.guppy_data.specs.ExternalSource.{Source, seen_source};
ghost use Rattle.guppy_data.specs.PackageSource.{External, IsFromSource, workspace_path, other_path, local_path, external_text, recorded_origin, seen_origin};
ghost use Rattle.guppy_data.specs.Utf8Path.{path_text};

use crate::records::PackageSourceRecord;
use crate::texts::path::Utf8Path;
use crate::views::external_source::ExternalSource;
use std::fmt;

/// Where a package comes from, as a view of a [`PackageSourceRecord`]. No call takes memory.
#[derive(Clone, Copy, Debug, PartialEq, Eq)]
pub enum PackageSource<'g> {
    /// The package is a member of the workspace, at this path from its root.
    Workspace(Utf8Path<'g>),
    /// The package lies at this path from the workspace's root, and is no member.
    Path(Utf8Path<'g>),
    /// The package comes from elsewhere: a registry or a repository.
    External(&'g str),
}

impl<'g> PackageSource<'g> {
    /// The text of the registry crates.io.
    pub const CRATES_IO_REGISTRY: &'static str =
        "registry+https://github.com/rust-lang/crates.io-index";

    /// The view of a record.
    pub fn new(source: &'g PackageSourceRecord) -> Self
        ensures { seen_origin result ≡ recorded_origin source.now }
    {
        match source {
            PackageSourceRecord::Workspace(path) => PackageSource::Workspace(path.as_path()),
            PackageSourceRecord::Path(path) => PackageSource::Path(path.as_path()),
            PackageSourceRecord::External(text) => PackageSource::External(text.as_str()),
        }
    }

    /// Whether the package is a member of the workspace.
    pub fn is_workspace(self) -> bool
        ensures { IsTrue result ↔ IsSome (workspace_path (seen_origin self.entry)) }
    {
        matches!(self, PackageSource::Workspace(_))
    }

    /// Whether the package is a local one that is no member of the workspace.
    pub fn is_path(self) -> bool
        ensures { IsTrue result ↔ IsSome (other_path (seen_origin self.entry)) }
    {
        matches!(self, PackageSource::Path(_))
    }

    /// Whether the package comes from elsewhere.
    pub fn is_external(self) -> bool
        ensures { IsTrue result ↔ IsSome (external_text (seen_origin self.entry)) }
    {
        matches!(self, PackageSource::External(_))
    }

    /// Whether the package comes from crates.io: from elsewhere, with exactly the text
    /// [`PackageSource::CRATES_IO_REGISTRY`].
    pub fn is_crates_io(self) -> bool
        ensures { IsTrue result ↔ (seen_origin self.entry
            ≡ External (codes "registry+https://github.com/rust-lang/crates.io-index")) }
    {
        match self {
            PackageSource::External(text) => text == Self::CRATES_IO_REGISTRY,
            _ => false,
        }
    }

    /// Whether the package has a path: it is a member of the workspace or another local package.
    pub fn is_local(self) -> bool
        ensures { IsTrue result ↔ IsSome (local_path (seen_origin self.entry)) }
    {
        !self.is_external()
    }

    /// The path of a member of the workspace; of any other package `None`.
    pub fn workspace_path(self) -> Option<Utf8Path<'g>>
        ensures { option_map path_text result ≡ workspace_path (seen_origin self.entry) }
    {
        match self {
            PackageSource::Workspace(path) => Some(path),
            _ => None,
        }
    }

    /// The path of a member of the workspace or of another local package; of a package from elsewhere
    /// `None`.
    pub fn local_path(self) -> Option<Utf8Path<'g>>
        ensures { option_map path_text result ≡ local_path (seen_origin self.entry) }
    {
        match self {
            PackageSource::Workspace(path) | PackageSource::Path(path) => Some(path),
            PackageSource::External(_) => None,
        }
    }

    /// The text of a package from elsewhere; of a local package `None`.
    pub fn external_source(self) -> Option<&'g str>
        ensures { option_copied result ≡ external_text (seen_origin self.entry) }
    {
        match self {
            PackageSource::External(text) => Some(text),
            _ => None,
        }
    }

    /// What the text of a package from elsewhere says, by [`ExternalSource::new`]. `None` for a local
    /// package, and for a text that `ExternalSource::new` doesn't read. A few passes over the text.
    pub fn parse_external(self) -> Option<ExternalSource<'g>>
        ensures accepted { (source : Source) →
            (option_map seen_source result ≡ Some source)
            ↔ IsFromSource (seen_origin self.entry) source }
        ensures refused { IsNone result
            ↔ ((source : Source) → ¬ IsFromSource (seen_origin self.entry) source) }
    {
        match self {
            PackageSource::External(text) => ExternalSource::new(text),
            _ => None,
        }
    }
}

/// The path, or the text of a package from elsewhere.
impl fmt::Display for PackageSource<'_> {
    ghost use Rattle.std.specs.Prelude.{Some};
    ghost use Rattle.guppy_data.specs.PackageSource.{origin_text, seen_origin};

    ghost output = { λ source. Some (origin_text (seen_origin source)) };

    fn fmt<W: fmt::Write>(&self, f: &mut fmt::Formatter<W>) -> fmt::Result {
        match self {
            PackageSource::Workspace(path) | PackageSource::Path(path) => write!(f, "{path}"),
            PackageSource::External(text) => f.write_str(text),
        }
    }
}
