//! The records of a spool's file as text, for whoever looks at it.
//!
//! `write_records` reads a `Disk` slot by slot, writes a line for each record and a last line with their count, and changes
//! nothing. `FileView` is a real file as such a disk: it takes no lock, so a proxy may have the file open.
#![tactic(auto)]

mod fault;
mod file_view;
mod list;
mod slot;

pub use fault::RecordsFault;
pub use file_view::FileView;
pub use list::{Shown, write_records};
