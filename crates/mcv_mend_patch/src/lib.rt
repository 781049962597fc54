//! A mended configuration as a JSON patch (RFC 6902) of what was read: `run_patch` is the path from the bytes read to the
//! bytes written (specs/Patching.antt).
#![tactic(auto)]

mod document;
mod run;

pub use run::run_patch;
