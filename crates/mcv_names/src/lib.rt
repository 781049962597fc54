//! What a reader of configurations speaks of: the names of handles, keys and operations, the path of each value, and the
//! faults there.
//!
//! A function that reads a value answers what the value names or a `ReadFault`; its contract ties the answer to a
//! definition that gives what is named or all faults there (`Read` in specs/Fault.antt).
#![tactic(auto)]

mod fault;
mod handle;
mod items;
mod names;
mod trail;

pub use fault::{ConfigFault, FaultKind, ReadFault};
pub use handle::{Handle, Many, Object, Selector};
pub use items::{items_or_none, some_items};
pub use names::{
    check_keys, check_names, default_key, handle_named, is_elsewhere, op_named, policies_key,
    read_type,
};
pub use trail::{Trail, fault_at};
