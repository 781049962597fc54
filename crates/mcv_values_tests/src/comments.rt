//! Texts and what is left of them. In the tables `^` is a LF, `~` a double quote, `&` a backslash and `_` a space.

use crate::rows::check_bytes;
use mcv_comments::{CommentFault, strip_comments};
use std::process::Abort;

/// The bytes of a column.
fn unfolded(rt: &(impl AllocGlobal + Abort), column: &str) -> Vec<u8> {
    let mut bytes = Vec::new(rt.alloc());
    for byte in column.as_bytes() {
        let meant = match *byte {
            b'^' => b'\n',
            b'~' => b'"',
            b'&' => b'\\',
            b'_' => b' ',
            other => other,
        };
        bytes.push(meant).expect(rt, "memory");
    }
    bytes
}

/// A case a line: its name, the text, and what is left of it.
const STRIPPED: &str = "no comment|{~pools~:{}}|{~pools~:{}}
both kinds|{~pools~:{},/* x */~route~:~NullRoute~} // y|{~pools~:{},_~route~:~NullRoute~}_
comments in texts|[~//~,~/*~,~*/~]|[~//~,~/*~,~*/~]
an escaped quote|[~&~//~]//|[~&~//~]
an escaped backslash|[~&&~]//|[~&&~]
the next LF stays|a//b^c|a^c
a line up to the end|a//b|a
an empty line|//^//|^
stars and slashes in a block|1/***/2/*/*/3|1_2_3
a block over lines|1/*^*/2|1_2
quotes in comments|1/*~*/2//~^3|1_2^3
a line in a block and a block in a line|/*//*/1///*^2|_1^2
a slash alone|1/2/|1/2/
a star alone|1*/2|1*/2
a text that never ends|~a//b|~a//b
a backslash at the end|~a&|~a&";

/// What is left of a column.
fn stripped(rt: &(impl AllocGlobal + Abort), column: &str) -> Vec<u8> {
    let text = unfolded(rt, column);
    strip_comments(rt.alloc(), text.as_slice()).expect(rt, "a text")
}

/// A row's text has what is left of it.
fn check_row(rt: &(impl AllocGlobal + Abort), row: &str) {
    let (_, columns) = row.split_once('|').expect(rt, "a name");
    let (text, left) = columns.split_once('|').expect(rt, "a text");
    check_bytes(
        rt,
        row,
        stripped(rt, text).as_slice(),
        unfolded(rt, left).as_slice(),
    );
}

#[test]
fn comments_are_taken_out(rt: HostRuntime) {
    for row in STRIPPED.lines() {
        check_row(&rt, row);
    }
}

/// Texts with a comment that doesn't end.
const OPEN: &str = "/*/
1/*
1/**
[~/*~]/*~*
//*/^/*";

/// Whether a column has a comment that doesn't end.
fn is_open(rt: &(impl AllocGlobal + Abort), column: &str) -> bool {
    let text = unfolded(rt, column);
    matches!(
        strip_comments(rt.alloc(), text.as_slice()),
        Err(CommentFault::Open)
    )
}

#[test]
fn comments_without_an_end_are_refused(rt: HostRuntime) {
    for row in OPEN.lines() {
        assert!(rt; is_open(&rt, row), "{row}");
    }
}
