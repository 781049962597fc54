//! The table of the class words of a route.

use crate::built::{check, check_text};
use mcv_base::Rest;
use mcv_classes::{Class, ClassTable};
use mcv_route::{PrefixPolicy, Route};
use std::process::Abort;

fn policy(rt: &(impl AllocGlobal + Abort), prefix: &[u8], route: Route) -> PrefixPolicy {
    let prefix = Vec::from_slice(rt.alloc(), prefix).expect(rt, "memory");
    PrefixPolicy { prefix, route }
}

/// A selector with one policy.
fn selector(rt: &(impl AllocGlobal + Abort), prefix: &[u8], route: Route) -> Route {
    let policies = vec![in rt.alloc(); policy(rt, prefix, route)];
    Route::PrefixSelector {
        policies: policies.expect(rt, "memory"),
        wildcard: None,
    }
}

/// The table of a selector with the policy `a`, and behind that one with the policy `ab`.
fn nested(rt: &(impl AllocGlobal + Abort)) -> ClassTable {
    let inner = selector(rt, b"ab", Route::Null);
    table_of(rt, selector(rt, b"a", inner))
}

/// The table of a selector with a policy for each key byte up to the last.
fn one_byte_policies(rt: &(impl AllocGlobal + Abort), last: u16) -> ClassTable {
    let mut policies = Vec::new(rt.alloc());
    for byte in 33..256u16 {
        if byte != 127 && byte <= last {
            let policy = policy(rt, &[byte as u8], Route::Null);
            policies.push(policy).expect(rt, "memory");
        }
    }
    let wildcard = None;
    table_of(rt, Route::PrefixSelector { policies, wildcard })
}

/// The words of classes, each with its member.
pub fn shown(rt: &(impl AllocGlobal + Abort), classes: &[Class]) -> String {
    let mut text = String::new(rt.alloc());
    for class in classes {
        let member = class.member().expect(rt, "a member");
        let (word, member) = (class.word(), member.as_bytes());
        write!(text, "{word:?} {member:?}|").expect(rt, "memory");
    }
    text
}

/// Rests, each with its class word where the policies are `a` and `ab`.
pub const RESTS: &str = "a a|ab ab|abc ab|b ";

/// The classes there.
pub const NESTED: &str = "[] [33]|[97] [97]|[97, 98] [97, 98]|";

fn table_of(rt: &(impl AllocGlobal + Abort), route: Route) -> ClassTable {
    ClassTable::new(rt.alloc(), &route).expect(rt, "memory")
}

/// A row's rest, and the word of its class.
pub fn rest_and_word<'a>(rt: &impl Abort, row: &'a str) -> (Rest, &'a [u8]) {
    let (rest, word) = row.split_once(' ').expect(rt, "a blank");
    let rest = Rest::of(rest.as_bytes()).expect(rt, "a rest");
    (rest, word.as_bytes())
}

fn check_rest(rt: &(impl AllocGlobal + Abort), table: &ClassTable, row: &str) {
    let (rest, word) = rest_and_word(rt, row);
    let class = table.class_of(rt.alloc(), &rest).expect(rt, "memory");
    check(rt, class.word() == word, row);
}

#[test]
fn the_longest_word_counts(rt: HostRuntime) {
    let table = nested(&rt);
    for row in RESTS.split('|') {
        check_rest(&rt, &table, row);
    }
}

#[test]
fn classes_have_members(rt: HostRuntime) {
    let classes = nested(&rt).classes(rt.alloc()).expect(&rt, "memory");
    check_text(&rt, "nested", shown(&rt, &classes).as_str(), NESTED);
}

/// The word of the first class, and how many classes there are.
fn check_classes(rt: &(impl AllocGlobal + Abort), table: &ClassTable, word: &[u8], count: usize) {
    let classes = table.classes(rt.alloc()).expect(rt, "memory");
    check(rt, classes.len() == count, "so many classes");
    let first = classes.first().expect(rt, "a class");
    check(rt, first.word() == word, "the first word");
}

#[test]
fn the_least_free_byte_is_a_member(rt: HostRuntime) {
    let table = one_byte_policies(&rt, 126);
    let member = table.member_of(b"").expect(&rt, "a member");
    check(&rt, member.as_bytes() == [128].as_slice(), "the member");
    check_classes(&rt, &table, b"", 95);
}

#[test]
fn a_class_without_a_member_is_left_out(rt: HostRuntime) {
    check_classes(&rt, &one_byte_policies(&rt, 255), &[33], 222);
}
