//! Tests of the values that every crate speaks of, of the client protocol's texts and of its sessions. They are apart from the crates that they call, so that those aren't proved a second time for them.
#![tactic(auto)]

#[cfg(test)]
mod comments;
#[cfg(test)]
mod legs;
#[cfg(test)]
mod names;
#[cfg(test)]
mod protocol;
#[cfg(test)]
mod rows;
#[cfg(test)]
mod session;
#[cfg(test)]
mod tables;
#[cfg(test)]
mod values;
