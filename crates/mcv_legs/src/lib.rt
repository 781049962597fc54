//! A request line and a configuration in, the legs of the request out.
//!
//! `run_legs` is the path from the bytes read to the bytes written: a request line
//! (`specs/Request.antt`), the configuration behind it, the legs sent before any outcome and the
//! reply there is by then (`specs/Answer.antt`), and their text (`specs/Text.antt`).
#![tactic(auto)]

mod device;
mod legs;
mod request;
mod text;

pub use legs::run_legs;
pub use request::requests_have_one_reading;
