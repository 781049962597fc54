//! The spool: records of deletes that their servers didn't take, each on the disk once its `append` has answered Ok.
//!
//! A `Spool` works on a `Disk`, one file. A record whose `append` answered Ok is found by every later
//! `open` that answers Ok, also where the machine stopped at any moment, inside a call or between two, if the disk keeps
//! the model and only these calls wrote the file.
#![tactic(auto)]

mod contents;
mod disk;
mod fault;
mod file_disk;
mod find;
mod history;
mod record;
mod recover;
mod spool;
mod write;

pub use contents::Slot;
pub use disk::{Disk, DiskFailed};
pub use fault::SpoolFault;
pub use file_disk::FileDisk;
pub use history::{a_disk_keeps_the_model, what_was_reported_is_kept};
pub use record::{SpoolRecord, Stored};
pub use spool::Spool;
