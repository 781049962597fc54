//! Tests of verdicts in the forms that options ask for. They are apart from the crate that they call, so that it isn't proved a
//! second time for them.
#![tactic(auto)]

#[cfg(test)]
mod explained;
#[cfg(test)]
mod reported;
