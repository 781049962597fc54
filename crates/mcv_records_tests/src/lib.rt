//! Tests of the records of a spool's file. They are apart from the crate that they call, so that it isn't proved a second time
//! for them.
#![tactic(auto)]

#[cfg(test)]
mod records;
