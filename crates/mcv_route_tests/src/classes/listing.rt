//! The classes of routes that were read, by the routes' numbers.

use super::words::{NESTED, RESTS, rest_and_word, shown};
use crate::built::{check, check_text, push, routes};
use mcv_base::Rest;
use mcv_classes::{Class, class_of, classes};
use mcv_route::Routes;
use std::process::Abort;

/// A route with the policy `a` and behind that one the policy `ab`, and a route without policies.
const TEXT: &str = "{
  \"routes\": [
    {\"aliases\": [\"/a/b/\"], \"route\": {\"type\": \"PrefixSelectorRoute\", \"policies\": {
      \"a\": {\"type\": \"PrefixSelectorRoute\", \"policies\": {\"ab\": \"NullRoute\"}}
    }}},
    {\"aliases\": [\"/././\"], \"route\": \"NullRoute\"}
  ]
}";

/// The class of a rest at the route of a number.
fn class_at(rt: &(impl AllocGlobal + Abort), routes: &Routes, number: usize, rest: &Rest) -> Class {
    let Some(_route) = routes.route(number) else {
        panic!(rt; "no such route");
    };
    class_of(rt.alloc(), routes, number, rest).expect(rt, "memory")
}

/// The classes of the route of a number.
fn classes_at(rt: &(impl AllocGlobal + Abort), routes: &Routes, number: usize) -> Vec<Class> {
    let Some(_route) = routes.route(number) else {
        panic!(rt; "no such route");
    };
    classes(rt.alloc(), routes, number).expect(rt, "memory")
}

/// A row's rest has its class word at route 0.
fn check_rest(rt: &(impl AllocGlobal + Abort), routes: &Routes, row: &str) {
    let (rest, word) = rest_and_word(rt, row);
    let class = class_at(rt, routes, 0, &rest);
    check(rt, class.word() == word, row);
}

fn check_rests(rt: &(impl AllocGlobal + Abort), routes: &Routes) {
    for row in RESTS.split('|') {
        check_rest(rt, routes, row);
    }
}

/// What is asked of routes.
#[derive(Clone, Copy)]
enum Asked {
    Rests,
    Classes,
    First,
}

fn check_routes(rt: &(impl AllocGlobal + Abort), routes: &Routes, asked: Asked) {
    match asked {
        Asked::Rests => check_rests(rt, routes),
        Asked::Classes => check_classes(rt, routes),
        Asked::First => check_first(rt, routes),
    }
}

fn check_of(rt: &(impl AllocGlobal + Abort), text: &str, asked: Asked) {
    check_routes(rt, &routes(rt, text), asked);
}

#[test]
fn rests_have_classes(rt: HostRuntime) {
    check_of(&rt, TEXT, Asked::Rests);
}

fn check_shown(rt: &(impl AllocGlobal + Abort), routes: &Routes, number: usize, wanted: &str) {
    let classes = classes_at(rt, routes, number);
    check_text(rt, "classes", shown(rt, &classes).as_str(), wanted);
}

fn check_classes(rt: &(impl AllocGlobal + Abort), routes: &Routes) {
    check_shown(rt, routes, 0, NESTED);
    check_shown(rt, routes, 1, "[] [33]|");
}

#[test]
fn routes_have_classes(rt: HostRuntime) {
    check_of(&rt, TEXT, Asked::Classes);
}

/// Adds a policy for a byte.
fn push_policy(rt: &impl Abort, text: &mut String, byte: u8) {
    push(rt, text, ",\"");
    if byte == b'"' || byte == b'\\' {
        push(rt, text, "\\");
    }
    text.push(char::from(byte)).expect(rt, "memory");
    push(rt, text, "\":\"NullRoute\"");
}

/// A configuration with a policy for each key byte that JSON text can have as a name of its own: 33 to 126.
fn one_byte_policies(rt: &(impl AllocGlobal + Abort)) -> String {
    let mut text = String::new(rt.alloc());
    push(
        rt,
        &mut text,
        "{\"route\":{\"type\":\"PrefixSelectorRoute\",\"policies\":{\"!\":\"NullRoute\"",
    );
    for byte in 34..127u8 {
        push_policy(rt, &mut text, byte);
    }
    push(rt, &mut text, "}}}");
    text
}

/// The first class has the empty word.
fn check_first(rt: &(impl AllocGlobal + Abort), routes: &Routes) {
    let classes = classes_at(rt, routes, 0);
    check(rt, classes.len() == 95, "95 classes");
    let first = classes.first().expect(rt, "a class");
    check(rt, first.word().is_empty(), "the empty word");
    let member = first.member().expect(rt, "a member");
    check(rt, member.as_bytes() == [128].as_slice(), "the byte 128");
}

#[test]
fn the_empty_word_takes_the_least_byte_without_a_policy(rt: HostRuntime) {
    check_of(&rt, one_byte_policies(&rt).as_str(), Asked::First);
}
