//! Tests of `mcv_hubs`, apart from it, so that it isn't proved a second time for them.
#![tactic(auto)]

#[cfg(test)]
mod hubs;
#[cfg(test)]
mod setup;
