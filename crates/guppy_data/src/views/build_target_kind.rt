ghost use Rattle.std.specs.Prelude.{◌≡◌};
ghost use Rattle.guppy_data.specs.BuildTargetKind.{HasAscendingTypes, recorded_kind, seen_kind};

use crate::records::BuildTargetKindRecord;

/// What is made of a build target, as a view of a [`BuildTargetKindRecord`].
#[derive(Clone, Copy, Debug, PartialEq, Eq)]
pub enum BuildTargetKind<'g> {
    /// A library, or an example made as one, of these crate types, which strictly ascend by their
    /// bytes.
    LibraryOrExample(&'g [String]),
    /// A procedural macro.
    ProcMacro,
    /// A binary.
    Binary,
}

impl<'g> BuildTargetKind<'g> {
    /// The view of a record. Takes no memory.
    pub fn new(kind: &'g BuildTargetKindRecord) -> Self
        ensures recorded { seen_kind result ≡ recorded_kind kind.now }
        ensures ascending { HasAscendingTypes (seen_kind result) }
    {
        match kind {
            BuildTargetKindRecord::LibraryOrExample(types) => {
                BuildTargetKind::LibraryOrExample(types.as_slice())
            }
            BuildTargetKindRecord::ProcMacro => BuildTargetKind::ProcMacro,
            BuildTargetKindRecord::Binary => BuildTargetKind::Binary,
        }
    }
}
