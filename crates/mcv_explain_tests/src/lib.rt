//! Tests of findings in sentences. They are apart from the crates that they call, so that those aren't proved a second time
//! for them.
#![tactic(auto)]

#[cfg(test)]
mod built;
#[cfg(test)]
mod explained;
