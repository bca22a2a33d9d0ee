//! Tests of the tables' machine as it is built: rows, the binding of statements, tables, and the lab's backend.
#![tactic(auto)]

#[cfg(test)]
mod binding;
#[cfg(test)]
mod faults;
#[cfg(test)]
mod replies;
#[cfg(test)]
mod shared;
