//! Tests of the tools over memory: the key tool, the audit log, and its verifier.
#![tactic(auto)]

#[cfg(test)]
mod chain;
#[cfg(test)]
mod helping;
#[cfg(test)]
mod keys;
#[cfg(test)]
mod logs;
#[cfg(test)]
mod verifier;
