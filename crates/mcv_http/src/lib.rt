//! The HTTP/1.1 of an operator's listener: what a request asks for, and the bytes of a response.
//!
//! A `RequestReader` takes the bytes of one request in pieces and says what it asks for (`Request`), or why it is refused
//! (`Refusal`), once that is known. `response_bytes` is what is sent back; the connection is closed behind it. Heads are
//! read by `httparse`, of whose grammar the contracts speak.
#![tactic(auto)]

mod reader;
mod request;
mod response;

pub use reader::{REQUEST_LIMIT, RequestReader, pieces_are_one_text, read_request};
pub use request::{Method, Refusal, Request, answer};
pub use response::{Response, Status, response_bytes};
