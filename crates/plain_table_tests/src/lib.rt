//! Random statements, executed by the tables and by a program of nested loops that has no contract.
#![tactic(auto)]

#[cfg(test)]
mod plain;
#[cfg(test)]
mod random;
