//! Tests of `mcv_turn` with `mcv_upstream`: a loop at one hub over servers in memory, with no thread. They are apart from the crates that
//! they call, so that these aren't proved a second time for them.
#![tactic(auto)]

#[cfg(test)]
mod disk;
#[cfg(test)]
mod rows;
#[cfg(test)]
mod scene;
#[cfg(test)]
mod server;
