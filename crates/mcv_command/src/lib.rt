//! What the program does with the words of its command line, over any reader, any writer, any files and any proxy.
//!
//! `run_words` does what they ask for and says how the program ends (`Ending`, `Stop`); `exit_status` is the status that
//! it ends with, and `second_line` what it says more of a fault of the configuration.
#![tactic(auto)]

mod detail;
mod files;
mod program;
mod proxy;
mod stop;
mod system;

pub use detail::{says_more, second_line};
pub use files::{NamedFiles, SystemFiles};
pub use program::run_words;
pub use proxy::Proxy;
pub use stop::{Ending, Stop, exit_status};
pub use system::given_words;
