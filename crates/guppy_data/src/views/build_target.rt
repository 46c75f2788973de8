ghost use Rattle.std.specs.Prelude.{◌≡◌, IsSome, Some};
ghost use Rattle.std.specs.String.{string_bytes};
ghost use Rattle.guppy_data.specs.BuildTargetId.{recorded_id, seen_id};
ghost use Rattle.guppy_data.specs.BuildTargetKind.{HasAscendingTypes, recorded_kind, seen_kind};
ghost use Rattle.guppy_data.specs.TargetName.{target_name};
ghost use Rattle.guppy_data.specs.Utf8Path.{path_text};

use crate::records::BuildTargetRecord;
use crate::texts::path::Utf8Path;
use crate::views::build_target_id::BuildTargetId;
use crate::views::build_target_kind::BuildTargetKind;

/// One target that is built of a package, as a view of a [`BuildTargetRecord`]. No call takes memory,
/// and each takes constant time.
#[derive(Clone, Copy, Debug)]
pub struct BuildTarget<'g> {
    target: &'g BuildTargetRecord,
    ghost named: { IsSome (target_name target.now) },
}

impl<'g> BuildTarget<'g> {
    ghost use Rattle.guppy_data.specs.BuildTarget.{seen_target};

    /// The view of a record. Asks that a library or build script has its `lib_name`.
    pub fn new(target: &'g BuildTargetRecord) -> Self
        requires { IsSome (target_name target.now) }
        ensures { seen_target result ≡ target.now }
    {
        BuildTarget { target }
    }

    /// What the target is, and its name where it is no library or build script.
    pub fn id(self) -> BuildTargetId<'g>
        ensures { seen_id result ≡ recorded_id (seen_target self.entry).id }
    {
        BuildTargetId::new(&self.target.id)
    }

    /// The name: of a library or build script its `lib_name`, of any other target the name in its ID.
    pub fn name(self) -> &'g str
        ensures { Some result.now ≡ target_name (seen_target self.entry) }
    {
        match (self.id().name(), &self.target.lib_name) {
            (Some(name), _) => name,
            (None, Some(name)) => name.as_str(),
            (None, None) => unreachable!(),
        }
    }

    /// What is made of the target.
    pub fn kind(self) -> BuildTargetKind<'g>
        ensures recorded { seen_kind result ≡ recorded_kind (seen_target self.entry).kind }
        ensures ascending { HasAscendingTypes (seen_kind result) }
    {
        BuildTargetKind::new(&self.target.kind)
    }

    /// The features without which the target isn't built.
    pub fn required_features(self) -> &'g [String]
        ensures { result.now ≡ (seen_target self.entry).required_features.items }
    {
        self.target.required_features.as_slice()
    }

    /// The path of the target's source.
    pub fn path(self) -> Utf8Path<'g>
        ensures { path_text result ≡ (seen_target self.entry).path }
    {
        self.target.path.as_path()
    }

    /// The Rust edition.
    pub fn edition(self) -> &'g str
        ensures { result.now ≡ string_bytes (seen_target self.entry).edition }
    {
        self.target.edition.as_str()
    }

    /// Whether the target is documented by default.
    pub fn doc_by_default(self) -> bool
        ensures { result ≡ (seen_target self.entry).doc_by_default }
    {
        self.target.doc_by_default
    }

    /// Whether the target's documentation is tested by default.
    pub fn doctest_by_default(self) -> bool
        ensures { result ≡ (seen_target self.entry).doctest_by_default }
    {
        self.target.doctest_by_default
    }

    /// Whether the target is tested by default.
    pub fn test_by_default(self) -> bool
        ensures { result ≡ (seen_target self.entry).test_by_default }
    {
        self.target.test_by_default
    }
}
