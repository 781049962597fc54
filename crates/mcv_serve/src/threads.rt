//! The threads beside the loop's.

use crate::launch::{Job, Keeper};
use mcv_spool::{Disk, Spool};
use std::alloc::AllocError;
use std::thread::{Builder, JoinHandle, Threads};

/// The stack of a thread.
const STACK: usize = 256 * 1024;

/// Starts the thread of the spool. An error is that there was none, or no memory for it.
pub(crate) fn start_keeper<D, K, R>(
    rt: &R,
    keeper: K,
    spool: Spool<D>,
) -> Result<JoinHandle<()>, AllocError>
where
    D: Disk + Send + 'static,
    K: Keeper + Send + 'static,
    R: Threads,
{
    let work = move || keeper.keep(spool);
    match Builder::new().stack_size(STACK).spawn(rt, work) {
        Ok(thread) => Ok(thread),
        Err(_) => Err(AllocError),
    }
}

/// Starts a thread for each job. An error is that there was none, or no memory for one.
pub(crate) fn start_jobs<J: Job + Send + 'static, R: Threads>(
    rt: &R,
    jobs: Vec<J>,
) -> Result<(), AllocError> {
    for job in jobs {
        let work = move || job.work();
        if Builder::new().stack_size(STACK).spawn(rt, work).is_err() {
            return Err(AllocError);
        }
    }
    Ok(())
}
