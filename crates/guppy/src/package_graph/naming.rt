//! IDs, and the paths and names of workspace members: the packages that these name, one by one and in
//! lists.
ghost use Rattle.std.specs.Prelude.{◌≡◌, ℕ, ◌<◌, List, [], ◌∷◌, length, map, Option, IfOk, IfErr, IsOk};
ghost use Rattle.std.specs.List.{AllZip};
ghost use Rattle.std.specs.Iterator.{IsFinite};
ghost use Rattle.guppy_data.specs.declared.texts.error.Error.{Error};
ghost use Rattle.guppy_data.specs.declared.records.PackageRecord.{PackageRecord};
ghost use Rattle.guppy_graph.specs.Ids.{ix_position};
ghost use Rattle.guppy_graph.specs.Keys.{DifferBelow};
ghost use Rattle.guppy_graph.specs.Graph.{GraphData, IsPackageGraph};
ghost use Rattle.guppy_graph.specs.Refused.{NamesText, IsFirstNot, EndsInFirstNot};
ghost use Rattle.guppy.specs.Read.{HasSome, ReadsAll, ReadsTo};
ghost use Rattle.guppy.specs.Query.{IsSetOfNamed};

use crate::package_graph::graph::PackageGraph;
use crate::set::PackageSet;
use guppy_core::PackageIx;
use guppy_data::{Error, PackageId, Utf8Path, Utf8PathBuf};

/// What names at most one package of a graph.
pub(crate) trait NamesPackage {
    /// Its text.
    ghost text: { Self → List ℕ };

    /// The package at the position has that text.
    ghost at: { List PackageRecord → List ℕ → ℕ → Type 0 };

    /// The text that an error names, where no package has it.
    ghost named: { Error → Option (List ℕ) };

    /// The position of the package. Takes memory only for the error's copy of the text.
    fn ix_in(self, graph: &PackageGraph) -> Result<PackageIx, Error>
        ensures found { IfOk result (λ ix. at graph.now.packages (text self) (ix_position ix)) }
        ensures known { HasSome (at graph.now.packages) (text self) → IsOk result }
        ensures unknown { IfErr result (NamesText named
            (IsFirstNot (HasSome (at graph.now.packages)) (text self ∷ []))) };

    ghost within: { (packages : List PackageRecord) (text : List ℕ) (p : ℕ) → at packages text p
        → p < length packages };

    ghost distinct: { (g : GraphData) → IsPackageGraph g
        → DifferBelow (at g.packages) (length g.packages) };
}

impl NamesPackage for &PackageId {
    ghost use Rattle.guppy.specs.Read.{text_now};
    ghost use Rattle.guppy_graph.specs.Ids.{HasId};
    ghost use Rattle.guppy_graph.specs.Refused.{named_id};
    ghost use Rattle.guppy_graph.specs.Accepted.{distinct_ids};
    ghost use Rattle.guppy_graph.proofs.PackageIds.{within_of};

    ghost text = { text_now };

    ghost at = { HasId };

    ghost named = { named_id };

    ghost within = { within_of };

    ghost distinct = { λ g is. is.accepted distinct_ids };

    fn ix_in(self, graph: &PackageGraph) -> Result<PackageIx, Error> {
        graph.ix_of(self)
    }
}

impl NamesPackage for Utf8Path<'_> {
    ghost use Rattle.guppy_data.specs.Utf8Path.{path_text};
    ghost use Rattle.guppy_graph.specs.Members.{HasPath};
    ghost use Rattle.guppy_graph.specs.Refused.{named_path};
    ghost use Rattle.guppy_graph.specs.Accepted.{distinct_paths};
    ghost use Rattle.guppy_graph.proofs.Membership.{path_within};

    ghost text = { path_text };

    ghost at = { HasPath };

    ghost named = { named_path };

    ghost within = { path_within };

    ghost distinct = { λ g is. is.accepted distinct_paths };

    fn ix_in(self, graph: &PackageGraph) -> Result<PackageIx, Error> {
        match graph.position_of_path(self) {
            Some(position) => Ok(graph.ix_at(position)),
            None => {
                let text = String::from_str(graph.alloc(), self.as_str())?;
                Err(Error::UnknownWorkspacePath(Utf8PathBuf::new(text)))
            }
        }
    }
}

impl NamesPackage for &str {
    ghost use Rattle.guppy.specs.Read.{text_now};
    ghost use Rattle.guppy_graph.specs.Members.{HasName};
    ghost use Rattle.guppy_graph.specs.Refused.{named_name};
    ghost use Rattle.guppy_graph.specs.Accepted.{distinct_names};
    ghost use Rattle.guppy_graph.proofs.Membership.{name_within};

    ghost text = { text_now };

    ghost at = { HasName };

    ghost named = { named_name };

    ghost within = { name_within };

    ghost distinct = { λ g is. is.accepted distinct_names };

    fn ix_in(self, graph: &PackageGraph) -> Result<PackageIx, Error> {
        match graph.position_of_name(self) {
            Some(position) => Ok(graph.ix_at(position)),
            None => {
                let name = String::from_str(graph.alloc(), self)?;
                Err(Error::UnknownWorkspaceName(name))
            }
        }
    }
}

impl PackageGraph {
    /// The positions of the packages that the list names, in its order, with its repeats.
    pub(crate) fn ixs_of<N: NamesPackage, I: Iterator<Item = N> + Drop>(
        &self,
        names: I,
    ) -> Result<Vec<PackageIx>, Error>
        requires can { I.can_next names }
        requires ends { IsFinite (I.remaining names) }
        ensures found { IfOk result (λ ixs. ReadsAll I.next_gives N.text names
            (λ texts. AllZip (N.at self.now.packages) texts (map ix_position ixs.items))) }
        ensures unknown { IfErr result (NamesText N.named (ReadsTo I.next_gives N.text names
            (EndsInFirstNot (HasSome (N.at self.now.packages))))) }
    {
        let mut ixs = Vec::new(self.alloc());
        for name in names {
            ixs.push(name.ix_in(self)?)?;
        }
        Ok(ixs)
    }

    /// The set of the packages that the list names.
    pub(crate) fn set_named<N: NamesPackage, I: Iterator<Item = N> + Drop>(
        &self,
        names: I,
    ) -> Result<PackageSet<'_>, Error>
        requires can { I.can_next names }
        requires ends { IsFinite (I.remaining names) }
        ensures graph { IfOk result (λ set. set.graph ≡ self.now) }
        ensures members { IfOk result (λ set. ReadsAll I.next_gives N.text names
            (λ texts. IsSetOfNamed (N.at self.now.packages) self.now.packages
            texts set.included)) }
        ensures unknown { IfErr result (NamesText N.named (ReadsTo I.next_gives N.text names
            (EndsInFirstNot (HasSome (N.at self.now.packages))))) }
    {
        let ixs = self.ixs_of::<N, I>(names)?;
        let set = self.set_of(ixs)?;
        Ok(set)
    }
}
