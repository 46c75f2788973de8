//! Callers of the libraries, each of which its library's page `CALLING.md` shows, called in the workspace of `reading`:
//!
//! - `graph`: of `guppy`;
//! - `metadata`: of `guppy_metadata`;
//! - `publish`: of `guppy_publish`;
//! - `affected`: of `guppy_affected`;
//! - `platform`: of `guppy_target`.

mod affected;
mod graph;
mod metadata;
pub mod platform;
mod publish;

use crate::callers::affected::members_to_test;
use crate::callers::graph::packages_to_vendor;
use crate::callers::metadata::load;
use crate::callers::publish::first_to_publish;
use crate::reading::METADATA;

const APP: &str = "path+file:///w/app#0.3.1-pre.1";

#[test]
fn each_caller_answers(rt: HostRuntime) {
    let graph = load(rt.alloc(), METADATA).expect(&rt, "a graph");
    let outside = packages_to_vendor(&graph).expect(&rt, "packages");
    assert_eq!(rt; outside.len(), 2);
    let first = first_to_publish(&graph).expect(&rt, "an order");
    assert_eq!(rt; first.expect(&rt, "a member").repr(), APP);
    let members = members_to_test(&graph, "README.md\napp/src/lib.rs\n").expect(&rt, "members");
    assert_eq!(rt; members.len(), 1);
}
