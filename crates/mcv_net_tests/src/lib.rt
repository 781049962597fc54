//! Tests of `mcv_net`, apart from it, so that it isn't proved a second time for them.
#![tactic(auto)]

#[cfg(test)]
mod chapters;
#[cfg(test)]
mod notices;
#[cfg(test)]
mod routes;
#[cfg(test)]
mod sockets;
#[cfg(test)]
mod watch;
