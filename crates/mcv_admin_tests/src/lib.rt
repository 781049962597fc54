//! Tests of an operator's listener: HTTP's requests and responses, what is counted as text, and a connection that is served. They are apart from the
//! crates that they call, so that those aren't proved a second time for them.
#![tactic(auto)]

#[cfg(test)]
mod connection;
#[cfg(test)]
mod http;
#[cfg(test)]
mod metrics;
