//! Tests of a connection that waits for nobody, and of the bytes that wait to be written to it. They are apart from the crates that
//! they call, so that these aren't proved a second time for them.
#![tactic(auto)]

#[cfg(test)]
mod outgoing;
#[cfg(test)]
mod upstreams;
