//! The requests of the classic text protocol, read from a stream in pieces, and the texts that a proxy writes.
//!
//! `RequestReader` reads what clients send; `reply_text` is what a client is answered and
//! `leg_text` what a server is sent. The definitions are in specs/: `Stream` says which
//! items are in a list of bytes, `Line` what one line says.
#![tactic(auto)]

mod answer;
mod item;
mod laws;
mod leg;
mod line;
mod reader;
mod words;

pub use answer::reply_text;
pub use item::{Item, Refusal, TextFault};
pub use laws::{any_pieces, failing_is_refused, leg_texts_are_read, one_reading};
pub use leg::leg_text;
pub use reader::RequestReader;
