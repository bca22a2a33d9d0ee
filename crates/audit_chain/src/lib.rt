//! The audit log: a chain of lines, each with a mac over all before it, and its verifier.
#![tactic(auto)]

mod chain;
mod detail;
mod kind;
mod laws;
mod line;
mod note;
mod reading;
mod refusals;
mod resuming;
mod stop;
mod verifier;
mod walk;

pub use chain::Chain;
pub use detail::Detail;
pub use kind::NoteKind;
pub use laws::one_finding;
pub use note::Note;
pub use refusals::{AppendRefusal, ResumeFault};
pub use verifier::{AuditVerdict, VerifyFault, verify};
