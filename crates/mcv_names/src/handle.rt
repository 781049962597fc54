//! The handles and the objects of a configuration, by what they are.

/// A handle that has `children`.
#[derive(Clone, Copy, Debug, PartialEq, Eq)]
pub enum Many {
    AllSync,
    AllInitial,
    AllAsync,
    Failover,
    MissFailover,
}

/// A handle that selects one of its policies.
#[derive(Clone, Copy, PartialEq, Eq)]
pub enum Selector {
    /// By what the rest begins with.
    Prefix,
    /// By the operation.
    Operation,
}

/// A handle, in the order of the table of handles.
#[derive(Clone, Copy, PartialEq, Eq)]
pub enum Handle {
    Pool,
    Null,
    Error,
    Many(Many),
    WarmUp,
    Migrate,
    Selector(Selector),
}

/// An object of the configuration, by what it is.
#[derive(Clone, Copy, PartialEq, Eq)]
pub enum Object {
    Root,
    /// One of `routes`.
    Entry,
    Pool,
    Hash,
    Shadow,
    Handle(Handle),
}
