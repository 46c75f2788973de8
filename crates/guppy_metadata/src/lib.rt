//! Reads what `cargo metadata --format-version 1` prints into the records that `guppy` makes a package
//! graph of.
//!
//! The modules, from the bottom up:
//!
//! - `fault`: why there are no records, and where in the JSON;
//! - `types`: what is read, before records are made of it;
//! - `object`: the members of a JSON object;
//! - `read`: objects that are read into memory that is used again;
//! - `asked`: members of objects that are asked for by their names;
//! - `path`: the folder of a package, from the workspace's root;
//! - `key`: what of names is compared first;
//! - `feature`: named features;
//! - `target`: build targets;
//! - `declared`: a dependency as a package declares it;
//! - `workspace`: the workspace and its members;
//! - `package`: packages;
//! - `parts`: a package, read member by member;
//! - `resolved`: dependencies as they are resolved;
//! - `fits`: which declared dependencies were resolved to one; `gathered`: what a link is gathered from;
//! - `link_buffer`: links in memory that is used again;
//! - `link`: links, of what is declared and what is resolved;
//! - `node`: the links of a node, read member by member;
//! - `sink`: what takes links, and details of packages, while they are read;
//! - `told`: the packages and the links, read item by item;
//! - `by_item`: all records, of JSON that is read item by item;
//! - `whole`: all records, so or of JSON that is read as a whole;
//! - `records`: all records;
//! - `laws`: what fits under one name.
#![tactic(auto)]

mod asked;
mod by_item;
mod declared;
mod fault;
mod feature;
mod fits;
mod gathered;
mod key;
pub mod laws;
mod link;
mod link_buffer;
mod node;
mod object;
mod package;
mod parts;
mod path;
mod read;
mod records;
mod resolved;
mod sink;
mod table;
mod target;
mod told;
mod types;
mod whole;
mod workspace;

pub use fault::{Kind, MetadataFault, TextFault};
pub use guppy_data::Records;
pub use link_buffer::LinkBuffer;
pub use records::{plain_records_of, read_records, records_of, records_with};
pub use sink::{LinkSink, NoSink, PackageSink, ReadLinks, ReadPackages, ReadRecords};
