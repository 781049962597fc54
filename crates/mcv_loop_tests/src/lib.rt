//! Tests of `mcv_loop`: a whole loop over clients, servers and a spool in memory, with no thread. They are apart from the crates that
//! they call, so that these aren't proved a second time for them.
#![tactic(auto)]

#[cfg(test)]
mod counter;
#[cfg(test)]
mod disk;
#[cfg(test)]
mod memory;
#[cfg(test)]
mod play;
#[cfg(test)]
mod rows;
#[cfg(test)]
mod script;
#[cfg(test)]
mod server;
