//! The words of the command line: `read_words` says what they ask for (`Job`), or why they ask for nothing
//! (`LineFault`). What `run` is asked for is one value (`RunOptions`), whose numbers are in their ranges.
#![tactic(auto)]

mod help;
mod options;
mod table;
mod words;

pub use options::{
    AnswerBytes, CheckOptions, ClientTimeout, Hubs, InRange, MaxClients, RunOptions, ServerTimeout,
    Sessions, Settings, SpoolOptions, Window,
};
pub use table::NumberRow;
pub use words::{Job, LineFault, read_words};
