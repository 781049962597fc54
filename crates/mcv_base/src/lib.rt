//! What every crate of mcv speaks of: operations, replies, keys, positions, requests and server texts.
//!
//! A key word is its routing prefix and its rest (`split_key`), a rest has a hashed part
//! (`hashed_part`), a reply has an outcome (`Reply::outcome`), and a server is named by a text
//! (`is_server`, `ServerText`). All else here is data.
#![tactic(auto)]

mod key;
mod number;
mod operation;
mod position;
mod reply;
mod request;
mod server;

pub use key::{
    KeyFault, Prefix, Rest, begins_with, cut_key, hashed_part, hashed_part_is_a_cut, is_key_word,
    key_words_have_one_reading, split_key,
};
pub use number::push_number;
pub use operation::{Mark, Op};
pub use position::Position;
pub use reply::{FixedReply, Outcome, Part, Parts, Reply};
pub use request::{Ask, CallId, LegId, LegRequest, Moment, Request, ServerId};
pub use server::{ServerText, is_server, server_law};
