//! The messages by which tables reply to a statement, as definitions that the backend and the model of a
//! session cite.
#![tactic(auto)]
