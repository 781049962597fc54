//! Tests of what the program does short of serving: `mcv_words`, `mcv_input`, `mcv_legs`, `mcv_verdict` and `mcv_command`, apart from them, so that they aren't proved a second time for them.
#![tactic(auto)]

#[cfg(test)]
mod commands;
#[cfg(test)]
mod details;
#[cfg(test)]
mod devices;
#[cfg(test)]
mod input;
#[cfg(test)]
mod legs;
#[cfg(test)]
mod spool;
#[cfg(test)]
mod verdict;
