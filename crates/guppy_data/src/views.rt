//! Borrowed views of the records.

pub mod build_target;
pub mod build_target_id;
pub mod build_target_kind;
pub mod dependency_req;
pub mod enabled_status;
pub mod external_source;
pub mod publish;
pub mod source;
