//! The handles of a route, as they are kept to be walked. The definition of what each one is: `specs/View.antt`.

use mcv_base::{Op, ServerId};
use mcv_names::Many;
use std::sync::Arc;

/// A pool under one hash: what a PoolRoute sends its own leg to.
#[derive(Drop)]
pub struct Leaf {
    /// The number of its symbol, by which a choice gives the index of a server.
    pub symbol: usize,
    /// Its servers, in the order of the configuration. Leaves of one pool share the list.
    pub servers: Arc<Vec<ServerId>>,
}

/// A copy of the requests for which a PoolRoute's choice is one of some indexes.
#[derive(Drop)]
#[cycle(route)]
pub struct Shadow {
    /// The first of the indexes.
    pub first: u64,
    /// The last, itself one of them.
    pub last: u64,
    pub target: Route,
}

/// What a PrefixSelectorRoute does with the keys that begin with a prefix.
#[derive(Drop)]
#[cycle(route)]
pub struct PrefixPolicy {
    pub prefix: Vec<u8>,
    pub route: Route,
}

/// What an OperationSelectorRoute does with an operation.
#[derive(Drop)]
#[cycle(route)]
pub struct OperationPolicy {
    /// None is a name in the configuration that no request has.
    pub op: Option<Op>,
    pub route: Route,
}

/// A handle with all below it, in the order of the table of handles.
///
/// The children's numbers are their places, among them the shadows' targets; of a warm-up cold is 0, warm 1, and
/// cold again 2 for the add; of a migration from is 0, to 1. What comes after all policies has the number after theirs.
#[derive(Drop)]
#[cycle(route)]
pub enum Route {
    Pool {
        leaf: Leaf,
        shadows: Vec<Shadow>,
    },
    Null,
    Error,
    /// One with children and nothing else.
    Many(Many, Vec<Route>),
    WarmUp {
        cold: Box<Route>,
        warm: Box<Route>,
        /// Seconds, of the add.
        exptime: u32,
    },
    Migrate {
        from: Box<Route>,
        to: Box<Route>,
        /// A moment, in seconds.
        start: u32,
        /// Seconds.
        interval: u32,
    },
    PrefixSelector {
        policies: Vec<PrefixPolicy>,
        wildcard: Option<Box<Route>>,
    },
    OperationSelector {
        policies: Vec<OperationPolicy>,
        default_policy: Option<Box<Route>>,
    },
}
