ghost use Rattle.std.specs.Prelude.{◌≡◌, ◌↔◌, ◌++◌, IsNone, IfSome, option_map};
ghost use Rattle.guppy_data.specs.ExternalSource.{Source, IsSource, IsRequest, seen_source, seen_request, printed_source, printed_request};

use std::fmt;

/// Where a package that is no workspace member and no path dependency comes from.
#[derive(Clone, Copy, Debug, PartialEq, Eq)]
pub enum ExternalSource<'g> {
    /// A registry with this URL.
    Registry(&'g str),
    /// A sparse registry with this URL.
    Sparse(&'g str),
    /// A Git repository.
    Git {
        /// The URL of the repository.
        repository: &'g str,
        /// What was asked for.
        req: GitReq<'g>,
        /// The commit that was found.
        resolved: &'g str,
    },
}

/// What is asked of a Git repository.
#[derive(Clone, Copy, Debug, PartialEq, Eq)]
pub enum GitReq<'g> {
    /// The head of this branch.
    Branch(&'g str),
    /// This tag.
    Tag(&'g str),
    /// This revision.
    Rev(&'g str),
    /// Nothing: the head of the default branch.
    Default,
}

impl<'g> ExternalSource<'g> {
    /// The front of a registry.
    pub const REGISTRY_PLUS: &'static str = "registry+";

    /// The front of a sparse registry.
    pub const SPARSE_PLUS: &'static str = "sparse+";

    /// The front of a Git repository.
    pub const GIT_PLUS: &'static str = "git+";

    /// What stands before a branch.
    pub const BRANCH_EQ: &'static str = "?branch=";

    /// What stands before a tag.
    pub const TAG_EQ: &'static str = "?tag=";

    /// What stands before a revision.
    pub const REV_EQ: &'static str = "?rev=";

    /// The URL of the registry crates.io.
    pub const CRATES_IO_URL: &'static str = "https://github.com/rust-lang/crates.io-index";

    /// Reads a source as Cargo prints it.
    ///
    /// What stands after the front `registry+` is a `Registry`, after `sparse+` a `Sparse`. What
    /// stands after `git+` is cut at its last `#`, behind which stands `resolved`. Before it the
    /// first `?branch=` cuts the repository from a `Branch`; without one the first `?tag=` from a
    /// `Tag`; without one the first `?rev=` from a `Rev`; without one all of it is the repository
    /// and `req` is `Default`.
    ///
    /// `None` for a text with no such front and for a Git source without `#`. Printing gives the
    /// text back. Takes no memory and a few passes over the text.
    pub fn new(text: &'g str) -> Option<Self>
        ensures accepted { (source : Source) →
            (option_map seen_source result ≡ Some source) ↔ IsSource text.now source }
        ensures refused { IsNone result ↔ ((source : Source) → ¬ IsSource text.now source) }
        ensures printed_back { IfSome result
            (λ source. printed_source (seen_source source) ≡ text.now) }
    {
        if let Some(url) = text.strip_prefix(Self::REGISTRY_PLUS) {
            return Some(ExternalSource::Registry(url));
        }
        if let Some(url) = text.strip_prefix(Self::SPARSE_PLUS) {
            return Some(ExternalSource::Sparse(url));
        }
        let rest = text.strip_prefix(Self::GIT_PLUS)?;
        let (front, resolved) = rest.rsplit_once('#')?;
        let (repository, req) = GitReq::cut_off(front);
        Some(ExternalSource::Git {
            repository,
            req,
            resolved,
        })
    }
}

impl<'g> GitReq<'g> {
    /// The repository and what is asked of it, from the text before the last `#`.
    fn cut_off(front: &'g str) -> (&'g str, GitReq<'g>)
        ensures { IsRequest front.now result.0.now (seen_request result.1) }
    {
        if let Some((repository, branch)) = front.split_once(ExternalSource::BRANCH_EQ) {
            return (repository, GitReq::Branch(branch));
        }
        if let Some((repository, tag)) = front.split_once(ExternalSource::TAG_EQ) {
            return (repository, GitReq::Tag(tag));
        }
        if let Some((repository, rev)) = front.split_once(ExternalSource::REV_EQ) {
            return (repository, GitReq::Rev(rev));
        }
        (front, GitReq::Default)
    }

    /// The marker and the name behind it, two empty texts for `Default`.
    fn marker_and_name(self) -> (&'static str, &'g str)
        ensures { result.0.now ++ result.1.now ≡ printed_request (seen_request self.entry) }
    {
        match self {
            GitReq::Branch(branch) => (ExternalSource::BRANCH_EQ, branch),
            GitReq::Tag(tag) => (ExternalSource::TAG_EQ, tag),
            GitReq::Rev(rev) => (ExternalSource::REV_EQ, rev),
            GitReq::Default => ("", ""),
        }
    }
}

/// The text that [`ExternalSource::new`] reads.
impl fmt::Display for ExternalSource<'_> {
    ghost use Rattle.std.specs.Prelude.{Some};
    ghost use Rattle.guppy_data.specs.ExternalSource.{seen_source, printed_source};

    ghost output = { λ source. Some (printed_source (seen_source source)) };

    fn fmt<W: fmt::Write>(&self, f: &mut fmt::Formatter<W>) -> fmt::Result {
        match *self {
            ExternalSource::Registry(url) => write!(f, "{}{url}", Self::REGISTRY_PLUS),
            ExternalSource::Sparse(url) => write!(f, "{}{url}", Self::SPARSE_PLUS),
            ExternalSource::Git {
                repository,
                req,
                resolved,
            } => {
                let (marker, name) = req.marker_and_name();
                write!(f, "{}{repository}{marker}{name}#{resolved}", Self::GIT_PLUS)
            }
        }
    }
}
