//! What a proxy is started with.

use crate::fault::ProxyFault;
use mcv_loop::{Limits, Sources};
use mcv_spool::{Disk, Spool};
use mcv_watch::Watch;
use std::alloc::AllocError;

/// Keeps the spool, in a thread of its own. A proxy ends only once that has.
pub trait Keeper: Drop {
    /// Works until it is asked to end.
    fn keep<D: Disk>(self, spool: Spool<D>);
}

/// Work for a thread of its own, which isn't awaited: it may be in the midst of something when a proxy ends, and ends with the process.
pub trait Job: Drop {
    /// Works until it is asked to end.
    fn work(self);
}

/// How a spool was found.
#[derive(Clone, Copy, Debug, PartialEq, Eq)]
pub struct Found {
    /// How many records are pending.
    pub pending: usize,
    /// How many slots its file has, with those of records that are done.
    pub slots: usize,
}

/// What a loop is made of.
#[derive(Drop)]
pub struct Tools<S: Sources, W: Watch> {
    pub sources: S,
    pub watch: W,
    pub limits: Limits,
}

/// What a proxy is started with. Its calls come in the order in which they stand here.
pub trait Launch: Drop {
    type Disk: Disk + Send + 'static;

    type Sources: Sources;

    type Watch: Watch;

    type Keeper: Keeper + Send + 'static;

    type Job: Job + Send + 'static;

    /// How many hubs there are, each with the keys of its number: 1 to 8; where this is less or more, the next one of these.
    fn hubs(&self) -> usize {
        1
    }

    /// The spool's disk. It is asked for once; None where it can't be had.
    fn disk(&mut self) -> Option<Self::Disk>;

    /// What the loop is made of. It is asked for once.
    fn tools(&mut self) -> Result<Tools<Self::Sources, Self::Watch>, ProxyFault>;

    /// Who keeps the spool. It is asked for once.
    fn keeper(&mut self) -> Result<Self::Keeper, AllocError>;

    /// What else is done beside the loop, each in a thread of its own. It is asked for once.
    fn jobs(&mut self) -> Result<Vec<Self::Job>, AllocError>;

    /// The spool was found so, and all threads run: clients may come. An error ends the proxy.
    fn opened(&mut self, _found: Found) -> Result<(), ProxyFault> {
        Ok(())
    }

    /// The keeper and all jobs are to end. The loop has ended by then.
    fn end_jobs(&mut self);

    /// The keeper has ended, and so many legs are still queued. It isn't called behind a fault.
    fn ended(&mut self, _left: usize) {}
}
