//! The configuration text, and what it names.
//!
//! `read_config` reads a JSON text with comments: pools of servers and trees of route handles, which name pools by number.
//! A text that names no configuration has a fault with a number and a path.
#![tactic(auto)]

mod aliases;
mod config;
mod entries;
mod hash;
mod name_table;
mod numbers;
mod pools;
mod progress;
mod read;
mod routes;
mod selecting;
mod texts;
mod timed;

pub use aliases::alias_law;
pub use config::{
    Config, ConfigParts, Entry, NamedPolicy, NamedPrefix, NamedRoute, NamedShadow, Pool,
};
pub use mcv_names::{ConfigFault, FaultKind, Many, ReadFault};
pub use read::{SIZE_LIMIT, read_config};
