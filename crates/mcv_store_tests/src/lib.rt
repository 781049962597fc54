//! Tests of what holds legs: the queues in memory and the spool's file, whose disk fails or stops at each of its calls. They are apart from the crates that they call, so that those aren't proved a second time for them.
#![tactic(auto)]

#[cfg(test)]
mod queues;
#[cfg(test)]
mod script;
#[cfg(test)]
mod spool;
