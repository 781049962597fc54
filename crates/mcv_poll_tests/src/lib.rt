//! Tests of `mcv_poll`, apart from it, so that it isn't proved a second time for them.
#![tactic(auto)]

#[cfg(test)]
mod disk;
#[cfg(test)]
mod gate;
#[cfg(test)]
mod legs;
#[cfg(test)]
mod office;
#[cfg(test)]
mod play;
#[cfg(test)]
mod rows;
