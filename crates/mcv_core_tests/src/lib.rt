//! Tests of `mcv_core` and `mcv_hub`, apart from them, so that those aren't proved a second time for them.
#![tactic(auto)]

#[cfg(test)]
mod chapters;
#[cfg(test)]
mod draw;
#[cfg(test)]
mod expect;
#[cfg(test)]
mod faults;
#[cfg(test)]
mod ground;
#[cfg(test)]
mod hub;
#[cfg(test)]
mod kept;
#[cfg(test)]
mod model;
#[cfg(test)]
mod random;
#[cfg(test)]
mod readable;
#[cfg(test)]
mod script;
#[cfg(test)]
mod scripts;
#[cfg(test)]
mod setup;
