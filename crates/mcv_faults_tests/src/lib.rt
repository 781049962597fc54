//! Tests of faults of configurations, and of where handles, servers and faults stand. They are apart from the crates that they
//! call, so that those aren't proved a second time for them.
#![tactic(auto)]

#[cfg(test)]
mod faults;
#[cfg(test)]
mod places;
