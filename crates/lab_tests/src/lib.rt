//! Tests of the lab's session: its bytes in and out, what it stores, its refusals, each device failing.
#![tactic(auto)]

#[cfg(test)]
mod hostile;
#[cfg(test)]
mod session;
#[cfg(test)]
mod stored;
#[cfg(test)]
mod testing;
