use mcv_config::read_config;
use mcv_route::Routes;
use mcv_witness::{Finding, confirm, finding_text};
use std::alloc::{AllocError, Global};
use std::process::Abort;
use std::str::from_utf8;
use std::test::Fail;

/// The routes of a configuration that is read.
pub fn routes(rt: &impl Abort, alloc: Global, text: &str) -> Result<Routes, AllocError> {
    match read_config(alloc, text.as_bytes()) {
        Ok(config) => Routes::build(alloc, config),
        Err(_) => panic!(rt; "the configuration is refused"),
    }
}

/// The lines of a row as a text.
pub fn lines(alloc: Global, row: &str) -> Result<Vec<u8>, AllocError> {
    let mut text = Vec::new(alloc);
    for line in row.split(" / ") {
        text.extend_from_slice(line.as_bytes())?;
        text.push(b'\n')?;
    }
    Ok(text)
}

/// A text has the lines of a row.
pub fn check_lines(rt: &impl Abort, alloc: Global, found: &[u8], row: &str) -> Result<(), Fail> {
    let text = lines(alloc, row)?;
    let shown = from_utf8(found).unwrap_or("no text");
    assert!(rt; found == text.as_slice(), "{row}\n{shown}");
    Ok(())
}

/// The number that is found is the one that a row wants.
pub fn check_number(rt: &impl Abort, row: &str, found: u8, wanted: u8) {
    assert!(rt; found == wanted, "{row}: {found}");
}

/// The parts of a case.
pub fn halves(case: &str) -> Result<(&str, &str), Fail> {
    Ok(case.split_once(" => ").ok_or("a case in two parts")?)
}

/// A finding of the routes is true and has this text.
pub fn check_true(
    rt: &impl Abort,
    alloc: Global,
    routes: &Routes,
    finding: &Finding,
    wanted: &str,
) -> Result<(), Fail> {
    assert!(rt; confirm(routes, finding), "{wanted}");
    let found = finding_text(alloc, finding, routes)?;
    check_lines(rt, alloc, found.as_slice(), wanted)
}
