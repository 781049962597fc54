//! What a server says to a leg, read from pieces, however its bytes are cut.
//!
//! A reply is taken only where the bytes fed are exactly one that may answer the operation, with
//! the leg's own key (`ReplyReader`), and refused at the first byte behind which no such reply goes
//! on. The replies of a connection with several legs in flight are read one behind the other, the
//! oldest leg's first (`Replies`). The answer to a probe has a reader of its own (`ProbeReader`).
#![tactic(auto)]

mod candidate;
mod fault;
mod flight;
mod laws;
mod line;
mod plain;
mod probe;
mod progress;
mod reader;
mod replies;
mod word;

pub use fault::ReplyFault;
pub use laws::{
    faults_close_readers, one_reply, one_version, replies_come_in_order, replies_in_any_cuts,
    replies_may_answer,
};
pub use probe::ProbeReader;
pub use reader::ReplyReader;
pub use replies::Replies;
