//! All that the verifier of the audit log does under its words: the folder's files in, the verdict out.
#![tactic(auto)]

mod files;
mod report;
mod status;
mod text;
mod top;

pub use status::{AuditStatus, FolderFile};
pub use top::audit_top;
