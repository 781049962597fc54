//! Tests of the verifier up to its verdicts: certificates, what they are judged by, what is picked and certified, and what shows a loss. They are apart from the crates that they call, so that those aren't proved a second time for them.
#![tactic(auto)]

#[cfg(test)]
mod built;
#[cfg(test)]
mod cert;
#[cfg(test)]
mod certify;
#[cfg(test)]
mod check;
#[cfg(test)]
mod judge;
#[cfg(test)]
mod make;
#[cfg(test)]
mod picks;
#[cfg(test)]
mod witness;
