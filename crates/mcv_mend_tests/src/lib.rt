//! Tests of `mcv_mend`, apart from it, so that it isn't proved a second time for them.
#![tactic(auto)]

#[cfg(test)]
mod drawn;
#[cfg(test)]
mod rows;
