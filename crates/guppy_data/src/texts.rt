//! The texts of a package graph: IDs, paths, names, faults and errors, and what each prints.

pub mod component;
pub mod dependency_kind;
pub mod error;
pub mod fault;
pub mod named_feature;
pub mod package_id;
pub mod path;
pub mod path_buf;
pub mod sorted_set;
pub mod warning;
