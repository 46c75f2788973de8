//! Sources as texts, and what they say.

use crate::cases::is_text;
use crate::printed::prints;
use guppy_data::{ExternalSource, GitReq};

// A text, and the source that it is the text of.
struct Cut {
    name: &'static str,
    text: &'static str,
    source: Option<ExternalSource<'static>>,
}

const CUTS: &[Cut] = &[
    Cut {
        name: "source_cuts",
        text: "git+https://x?tag=v1?branch=m#r",
        source: Some(ExternalSource::Git {
            repository: "https://x?tag=v1",
            req: GitReq::Branch("m"),
            resolved: "r",
        }),
    },
    Cut {
        name: "source_cuts",
        text: "git+u#a#b",
        source: Some(ExternalSource::Git {
            repository: "u#a",
            req: GitReq::Default,
            resolved: "b",
        }),
    },
    Cut {
        name: "source_cuts",
        text: "git+https://x",
        source: None,
    },
    Cut {
        name: "source_cuts",
        text: "",
        source: None,
    },
    Cut {
        name: "source_cuts, sources_print",
        text: "sparse+https://index.crates.io",
        source: Some(ExternalSource::Sparse("https://index.crates.io")),
    },
    Cut {
        name: "git_vectors",
        text: "git+https://github.com/rust-lang/cargo.git?tag=v0.46.0#0227f048fcb7c798026ede6cc20c92befc84c3a4",
        source: Some(ExternalSource::Git {
            repository: "https://github.com/rust-lang/cargo.git",
            req: GitReq::Tag("v0.46.0"),
            resolved: "0227f048fcb7c798026ede6cc20c92befc84c3a4",
        }),
    },
    Cut {
        name: "git_vectors",
        text: "git+https://github.com/gyscos/zstd-rs.git#bc874a57298bdb500cdb5aeac5f23878b6480d0b",
        source: Some(ExternalSource::Git {
            repository: "https://github.com/gyscos/zstd-rs.git",
            req: GitReq::Default,
            resolved: "bc874a57298bdb500cdb5aeac5f23878b6480d0b",
        }),
    },
    Cut {
        name: "git_vectors",
        text: "git+u?rev=0?rev=1#r",
        source: Some(ExternalSource::Git {
            repository: "u",
            req: GitReq::Rev("0?rev=1"),
            resolved: "r",
        }),
    },
    Cut {
        name: "sources_print",
        text: "registry+https://github.com/rust-lang/crates.io-index",
        source: Some(ExternalSource::Registry("https://github.com/rust-lang/crates.io-index")),
    },
    Cut {
        name: "sources_print",
        text: "git+u?branch=b#r",
        source: Some(ExternalSource::Git {
            repository: "u",
            req: GitReq::Branch("b"),
            resolved: "r",
        }),
    },
    Cut {
        name: "sources_print",
        text: "git+u?tag=t#r",
        source: Some(ExternalSource::Git {
            repository: "u",
            req: GitReq::Tag("t"),
            resolved: "r",
        }),
    },
    Cut {
        name: "sources_print",
        text: "git+u?rev=v#r",
        source: Some(ExternalSource::Git {
            repository: "u",
            req: GitReq::Rev("v"),
            resolved: "r",
        }),
    },
    Cut {
        name: "sources_print",
        text: "git+u#r",
        source: Some(ExternalSource::Git {
            repository: "u",
            req: GitReq::Default,
            resolved: "r",
        }),
    },
];

#[test]
fn cuts(rt: HostRuntime) {
    for cut in CUTS {
        let source = ExternalSource::new(cut.text);
        assert!(rt; source == cut.source, "{} at {}", cut.name, cut.text);
        if let Some(source) = source {
            prints(&rt, rt.alloc(), cut.name, source, cut.text);
        }
    }
}

#[test]
fn source_constants(rt: HostRuntime) {
    let constants = [
        (ExternalSource::REGISTRY_PLUS, "registry+"),
        (ExternalSource::SPARSE_PLUS, "sparse+"),
        (ExternalSource::GIT_PLUS, "git+"),
        (ExternalSource::BRANCH_EQ, "?branch="),
        (ExternalSource::TAG_EQ, "?tag="),
        (ExternalSource::REV_EQ, "?rev="),
        (
            ExternalSource::CRATES_IO_URL,
            "https://github.com/rust-lang/crates.io-index",
        ),
    ];
    for (constant, wanted) in constants {
        is_text(&rt, "source_constants", constant, wanted);
    }
}
