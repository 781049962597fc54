//! Tests of `mcv_config`, of the routes and the classes of keys that are made of what it reads, and of what routes do with a request: `mcv_rules`, `mcv_plan`, `mcv_symbolic` and `mcv_asks`. They are apart from those crates, so that these aren't proved a second time for them.
#![tactic(auto)]

#[cfg(test)]
mod asks;
#[cfg(test)]
mod built;
#[cfg(test)]
mod classes;
#[cfg(test)]
mod contents;
#[cfg(test)]
mod page;
#[cfg(test)]
mod plan;
#[cfg(test)]
mod route;
#[cfg(test)]
mod routes;
#[cfg(test)]
mod rules;
#[cfg(test)]
mod symbolic;
