use mcv_config::read_config;
use mcv_route::Routes;
use std::process::Abort;

/// The routes of a text that is read.
pub fn routes(rt: &(impl AllocGlobal + Abort), text: &str) -> Routes {
    let config = read_config(rt.alloc(), text.as_bytes()).expect(rt, "a configuration");
    Routes::build(rt.alloc(), config).expect(rt, "memory")
}

/// What is wanted is so.
pub fn check(rt: &impl Abort, is_so: bool, what: &str) {
    assert!(rt; is_so, "{what}");
}

/// The text that is found is the one that a row wants.
pub fn check_text(rt: &impl Abort, row: &str, found: &str, wanted: &str) {
    assert!(rt; found == wanted, "{row}\n{found}");
}

/// Adds a piece to a text.
pub fn push(rt: &impl Abort, text: &mut String, piece: &str) {
    text.push_str(piece).expect(rt, "memory");
}
