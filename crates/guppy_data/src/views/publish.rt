ghost use Rattle.std.specs.Prelude.{◌≡◌, ◌↔◌, [], IsTrue, codes};
ghost use Rattle.std.specs.List.{list_any};
ghost use Rattle.std.specs.Str.{bytes_eq};
ghost use Rattle.std.specs.String.{string_bytes};
ghost use Rattle.guppy_data.specs.PackagePublish.{Everywhere, OnlyTo, MayPublishTo, recorded_publish, seen_publish};

use crate::records::PackagePublishRecord;

/// Where a package may be published, as a view of a [`PackagePublishRecord`]. No call takes memory.
#[derive(Clone, Copy, Debug, PartialEq, Eq)]
pub enum PackagePublish<'g> {
    /// Everywhere.
    Unrestricted,
    /// To the registries of these names alone.
    Registries(&'g [String]),
}

impl<'g> PackagePublish<'g> {
    /// The name of the registry crates.io.
    pub const CRATES_IO: &'static str = "crates-io";

    /// The view of a record.
    pub fn new(publish: &'g PackagePublishRecord) -> Self
        ensures { seen_publish result ≡ recorded_publish publish.now }
    {
        match publish {
            PackagePublishRecord::Unrestricted => PackagePublish::Unrestricted,
            PackagePublishRecord::Registries(names) => {
                PackagePublish::Registries(names.as_slice())
            }
        }
    }

    /// Whether the package may be published everywhere. A list of registries is a restriction,
    /// whatever it names.
    pub fn is_unrestricted(self) -> bool
        ensures { IsTrue result ↔ (seen_publish self.entry ≡ Everywhere) }
    {
        matches!(self, PackagePublish::Unrestricted)
    }

    /// Whether the package may be published to the registry of this name: it may be published
    /// everywhere, or the name is listed. Compares the name with the listed ones in turn.
    pub fn can_publish_to(self, registry: &str) -> bool
        ensures { IsTrue result ↔ MayPublishTo (seen_publish self.entry) registry.now }
    {
        match self {
            PackagePublish::Unrestricted => true,
            PackagePublish::Registries(names) => is_listed(names, registry),
        }
    }

    /// Whether the package may be published to crates.io, by [`PackagePublish::can_publish_to`].
    pub fn can_publish_to_crates_io(self) -> bool
        ensures { IsTrue result ↔ MayPublishTo (seen_publish self.entry) (codes "crates-io") }
    {
        self.can_publish_to(Self::CRATES_IO)
    }

    /// Whether the package may be published nowhere: to a list of registries that names none.
    pub fn is_never(self) -> bool
        ensures { IsTrue result ↔ (seen_publish self.entry ≡ OnlyTo []) }
    {
        matches!(self, PackagePublish::Registries([]))
    }
}

fn is_listed(names: &[String], wanted: &str) -> bool
    ensures { result ≡ list_any (λ name. bytes_eq (string_bytes name) wanted.now) names.now }
{
    names.iter().any(|name| name.as_str() == wanted)
}
