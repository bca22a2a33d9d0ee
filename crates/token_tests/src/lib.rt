//! Tests of tokens: the rule, records and the store, as another program has them.
#![tactic(auto)]

#[cfg(test)]
mod clashes;
#[cfg(test)]
mod files;
#[cfg(test)]
mod many;
#[cfg(test)]
mod records;
#[cfg(test)]
mod starts;
#[cfg(test)]
mod store;
#[cfg(test)]
mod wants;
