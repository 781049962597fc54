//! Tests of pictures. They are apart from the crate that they call, so that it isn't proved a second time for them.
#![tactic(auto)]

#[cfg(test)]
mod built;
#[cfg(test)]
mod drawn;
