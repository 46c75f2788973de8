ghost use Rattle.std.specs.Prelude.{◌≡◌};

use crate::texts::path::Utf8Path;
use std::cmp::Ordering;
use std::fmt;
use std::hash::{Hash, Hasher};
use std::marker::Model;

/// A path, which is equal, ordered and hashed by its list of components, as [`Utf8Path`] is.
#[derive(Debug, Drop)]
pub struct Utf8PathBuf {
    text: String,
}

impl Model for Utf8PathBuf {
    ghost use Rattle.std.specs.Prelude.{List, ℕ};
    ghost use Rattle.std.specs.String.{string_bytes};

    ghost Value = { List ℕ };

    ghost view = { λ p. string_bytes p.text };
}

impl Utf8PathBuf {
    ghost use Rattle.std.specs.String.{string_bytes};
    ghost use Rattle.guppy_data.specs.Utf8Path.{path_text};

    /// The path that `text` gives, which it keeps. Takes no memory and constant time.
    pub fn new(text: String) -> Self
        ensures { result ≡ string_bytes text }
    {
        Utf8PathBuf { text }
    }

    /// The same path, borrowed.
    pub fn as_path(&self) -> Utf8Path<'_>
        ensures { path_text result ≡ self.now }
    {
        Utf8Path::new(self.text.as_str())
    }
}

impl PartialEq for Utf8PathBuf {
    ghost use Rattle.std.specs.Ordering.{eq_by_cmp};
    ghost use Rattle.std.specs.Cmp.Rules.{comparing};
    ghost use Rattle.std.proofs.Common.{rules};
    ghost use Rattle.guppy_data.specs.Path.{path_cmp};

    ghost eq = { eq_by_cmp path_cmp };

    ghost laws = { Prim.search (comparing, rules) depth 9 };

    fn eq(&self, other: &Self) -> bool {
        self.as_path() == other.as_path()
    }
}

impl Eq for Utf8PathBuf {
    ghost use Rattle.std.specs.Cmp.Rules.{comparing};
    ghost use Rattle.std.proofs.Common.{rules};

    ghost laws = { Prim.search (comparing, rules) depth 9 };
}

impl Ord for Utf8PathBuf {
    ghost use Rattle.std.specs.Cmp.Rules.{comparing};
    ghost use Rattle.std.proofs.Common.{rules};
    ghost use Rattle.guppy_data.specs.Path.{path_cmp};

    ghost cmp = { path_cmp };

    ghost total = { Prim.search (comparing, rules) depth 9 };

    ghost matches_partial_cmp = { Prim.search (comparing, rules) };

    ghost matches_eq = { Prim.search (comparing, rules) };

    fn cmp(&self, other: &Self) -> Ordering {
        self.as_path().cmp(&other.as_path())
    }
}

impl PartialOrd for Utf8PathBuf {
    ghost use Rattle.std.specs.Ordering.{as_partial_cmp};
    ghost use Rattle.std.specs.Cmp.{partial_order_from_own_ties};
    ghost use Rattle.std.specs.Cmp.Rules.{comparing};
    ghost use Rattle.std.proofs.Common.{rules};
    ghost use Rattle.guppy_data.specs.Path.{path_cmp};

    ghost partial_cmp = { as_partial_cmp path_cmp };

    ghost laws = { partial_order_from_own_ties (Prim.search (comparing, rules) depth 9)
        (Prim.search (comparing, rules) depth 9) };

    fn partial_cmp(&self, other: &Self) -> Option<Ordering> {
        Some(self.cmp(other))
    }
}

impl Hash for Utf8PathBuf {
    ghost use Rattle.guppy_data.specs.Path.{path_hash};
    ghost use Rattle.guppy_data.specs.SamePath.{hashed_alike};

    ghost hash_input = { path_hash };

    ghost respects_eq = { hashed_alike };

    fn hash<H: Hasher>(&self, state: &mut H) {
        self.as_path().hash(state);
    }
}

impl fmt::Display for Utf8PathBuf {
    ghost use Rattle.std.specs.Prelude.{Some};

    ghost output = { λ p. Some p };

    fn fmt<W: fmt::Write>(&self, f: &mut fmt::Formatter<W>) -> fmt::Result {
        f.write_str(self.text.as_str())
    }
}
