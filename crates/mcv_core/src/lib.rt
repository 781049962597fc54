//! The core of the proxy: its running calls and their legs, and the events that move them.
//!
//! `Core` answers each event at once and takes memory in `new` and `begin` alone. What contracts see of it is `core_view`
//! (specs/View.antt): the routes, the rows of calls and legs (`Rattle.mcv_events.specs.Rows`), and what is kept beside
//! them. Each event names the move of the world that it is.
#![tactic(auto)]

mod answer;
mod begin;
mod call;
mod calls;
mod counted;
mod counts;
mod dispatcher;
mod engine;
mod errand;
mod facts;
mod fault;
mod launch;
mod laws;
mod opening;
mod progress;
mod readers;
mod request;
mod run;
mod send;
mod settle;
mod spooling;
mod step;
mod take;
mod turn;

pub use dispatcher::Dispatcher;
pub use engine::Core;
pub use fault::CoreFault;
pub use laws::events_keep_deletes;
pub use readers::{CallView, LegView};
pub use run::{Answer, Event, Run, run_all};
pub use step::{Change, LegState, Step};
pub use turn::Era;
