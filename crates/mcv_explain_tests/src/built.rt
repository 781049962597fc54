//! Routes, and the comparison of texts.

use mcv_config::read_config;
use mcv_route::Routes;
use std::alloc::{AllocError, Global};
use std::process::Abort;
use std::str::from_utf8;

/// The routes of a configuration that is read.
pub fn routes(rt: &impl Abort, alloc: Global, text: &str) -> Result<Routes, AllocError> {
    match read_config(alloc, text.as_bytes()) {
        Ok(config) => Routes::build(alloc, config),
        Err(_) => panic!(rt; "the configuration is refused"),
    }
}

/// A text is the one that is wanted.
pub fn check_text(rt: &impl Abort, found: &[u8], wanted: &str) {
    let shown = from_utf8(found).unwrap_or("no text");
    assert!(rt; found == wanted.as_bytes(), "{wanted}\n{shown}");
}
