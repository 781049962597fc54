//! What a configuration names: its servers, its pools and its routes, each by its number.
//!
//! A tree names pools and servers by number, so that no tree has a copy of a list of servers.

ghost use Rattle.std.specs.Prelude.{◌≡◌};
ghost use Rattle.mcv_config.specs.Limits.{IsWithinLimits};
ghost use Rattle.mcv_config.specs.ConfigValue.{IsSound, config_value};

use mcv_base::{Op, Prefix, ServerId};
use mcv_names::Many;
use mcv_pools::{HashFunc, Servers};
use std::marker::Model;

/// The servers of a pool, one or more, in the order of its list.
#[derive(Drop)]
pub struct Pool {
    pub servers: Vec<ServerId>,
}

/// A copy of the requests for which a pool chooses one of some servers.
#[derive(Drop)]
#[cycle(route)]
pub struct NamedShadow {
    /// The first of their indexes.
    pub first: u64,
    /// The last, itself one of them.
    pub last: u64,
    pub target: NamedRoute,
}

/// The route of the keys that begin with a prefix.
#[derive(Drop)]
#[cycle(route)]
pub struct NamedPrefix {
    pub prefix: Vec<u8>,
    pub route: NamedRoute,
}

/// The route of an operation.
#[derive(Drop)]
#[cycle(route)]
pub struct NamedPolicy {
    /// None for a name that is read and kept, and that no request has.
    pub op: Option<Op>,
    pub route: NamedRoute,
}

/// A handle with all below it, as the configuration names it.
#[derive(Drop)]
#[cycle(route)]
pub enum NamedRoute {
    /// A pool, by its number, under a hash function with its salt.
    Pool {
        pool: usize,
        func: HashFunc,
        salt: Vec<u8>,
        shadows: Vec<NamedShadow>,
    },
    /// One server of a pool, as a pool of its own.
    Server {
        pool: usize,
        index: usize,
    },
    Null,
    Error,
    /// One with children and nothing else.
    Many(Many, Vec<NamedRoute>),
    WarmUp {
        cold: Box<NamedRoute>,
        warm: Box<NamedRoute>,
        /// Seconds, of the add.
        exptime: u32,
    },
    Migrate {
        from: Box<NamedRoute>,
        to: Box<NamedRoute>,
        /// A moment, in seconds.
        start: u32,
        /// Seconds.
        interval: u32,
    },
    PrefixSelector {
        policies: Vec<NamedPrefix>,
        wildcard: Option<Box<NamedRoute>>,
    },
    OperationSelector {
        policies: Vec<NamedPolicy>,
        default_policy: Option<Box<NamedRoute>>,
    },
}

/// A route, and the routing prefixes that select it.
#[derive(Drop)]
pub struct Entry {
    pub aliases: Vec<Prefix>,
    pub route: NamedRoute,
}

/// The servers, pools and routes of a configuration.
#[derive(Drop)]
pub struct ConfigParts {
    /// Numbered by first appearance, in the walk of the pools and then of the routes.
    pub servers: Servers,
    /// Those of `pools` in the byte order of their names, then those that routes hold. A pool's number is its place.
    pub pools: Vec<Pool>,
    pub entries: Vec<Entry>,
}

/// What a configuration text names, sound and within the limits. Clauses see a `ConfigValue`.
#[derive(Drop)]
pub struct Config {
    pub(crate) parts: ConfigParts,
}

impl Model for Config {
    ghost use Rattle.mcv_config.specs.Codes.{config_code};
    ghost use Rattle.mcv_config.specs.ConfigValue.{IsSound, ConfigValue, config_value};
    ghost use Rattle.mcv_config.specs.Limits.{IsWithinLimits};

    ghost Value = { ConfigValue };

    ghost coded = { config_code };

    ghost view = { λ c. config_value c.parts };

    ghost invariant = { λ c. IsSound (config_value c.parts) × IsWithinLimits (config_value c.parts) };
}

impl Config {
    /// The servers, pools and routes.
    pub fn parts(&self) -> &ConfigParts
        ensures config { config_value result.now ≡ self.now }
        ensures sound { IsSound self.now }
        ensures limits { IsWithinLimits self.now }
    {
        &self.parts
    }

    /// The servers, pools and routes, to be changed or given away.
    pub fn into_parts(self) -> ConfigParts
        ensures config { config_value result ≡ self }
        ensures sound { IsSound self }
        ensures limits { IsWithinLimits self }
    {
        self.parts
    }
}
