use crate::rows::check;
use mcv_base::ServerId;
use mcv_pools::{Fnv, HashFunc, KeyHash, Servers, Symbol, Symbols, TableHash, choose};
use std::process::Abort;

fn symbol(rt: &(impl AllocGlobal + Abort), salt: &str, n: usize) -> Symbol {
    let salt = Vec::from_slice(rt.alloc(), salt.as_bytes()).expect(rt, "memory");
    Symbol::new(HashFunc::Ch3, salt, n).expect(rt, "a symbol")
}

/// The servers of a list, in its order.
fn servers_of(rt: &(impl AllocGlobal + Abort), list: &str) -> Servers {
    let mut servers = Servers::new(rt.alloc());
    for text in list.split(' ') {
        let _ = servers.insert(text).expect(rt, "a server");
    }
    servers
}

#[test]
fn servers_are_numbered_by_first_appearance(rt: HostRuntime) {
    let servers = servers_of(&rt, "b:1 a:1 b:1 c:1 a:1");
    check(&rt, servers.len() == 3, "three servers");
    for (id, text) in [(0, "b:1"), (1, "a:1"), (2, "c:1")] {
        check(&rt, servers.find(text) == Some(ServerId(id)), text);
        check(&rt, servers.text(ServerId(id)) == Some(text), text);
    }
    check(&rt, servers.find("c:2").is_none(), "c:2");
    check(&rt, servers.text(ServerId(3)).is_none(), "no server 3");
}

/// Symbols with these salts, each with the number of its servers.
fn symbols_of(rt: &(impl AllocGlobal + Abort), rows: &[(&str, usize)]) -> Symbols {
    let mut symbols = Symbols::new(rt.alloc());
    for (salt, n) in rows {
        let _ = symbols.insert(symbol(rt, salt, *n)).expect(rt, "memory");
    }
    symbols
}

/// Whether a symbol is of the salt `y` and two servers.
fn is_of_y(symbol: &Symbol) -> bool {
    symbol.salt() == b"y".as_slice() && symbol.n() == 2 && symbol.func() == HashFunc::Ch3
}

#[test]
fn symbols_that_agree_are_one(rt: HostRuntime) {
    let symbols = symbols_of(&rt, &[("x", 2), ("y", 2), ("x", 2)]);
    check(&rt, symbols.len() == 2, "two symbols");
    for (salt, n, at) in [("x", 2, Some(0)), ("y", 2, Some(1)), ("y", 3, None)] {
        check(&rt, symbols.find(&symbol(&rt, salt, n)) == at, salt);
    }
    check(&rt, symbols.get(1).is_some_and(is_of_y), "the second");
    check(&rt, symbols.get(2).is_none(), "no third");
}

/// The index that FNV-1a gives a part, with this salt and as many servers as there can be.
fn fnv_index(rt: &(impl AllocGlobal + Abort), part: &str, salt: &str) -> usize {
    Fnv.index(&symbol(rt, salt, usize::MAX), part.as_bytes())
}

#[test]
fn fnv_has_its_reference_vectors(rt: HostRuntime) {
    for (part, salt, index) in [
        ("", "", 0xcbf2_9ce4_8422_2325),
        ("a", "", 0xaf63_dc4c_8601_ec8c),
        ("foo", "bar", 0x8594_4171_f739_67e8),
    ] {
        check(&rt, fnv_index(&rt, part, salt) == index, part);
    }
}

/// The indexes of a part for a symbol of two servers and one of one, and behind them.
fn choice_of(rt: &(impl AllocGlobal + Abort), part: &[u8]) -> (usize, usize, usize) {
    let symbols = symbols_of(rt, &[("", 2), ("", 1)]);
    let choice = choose(rt.alloc(), &Fnv, &symbols, part).expect(rt, "memory");
    (choice.index(0), choice.index(1), choice.index(2))
}

#[test]
fn a_choice_has_an_index_for_each_symbol(rt: HostRuntime) {
    check(&rt, choice_of(&rt, b"a") == (0, 0, 0), "a");
    check(&rt, choice_of(&rt, b"b") == (1, 0, 0), "b");
}

/// A hash that has 5 for the part `a`.
fn list_of_a(rt: &(impl AllocGlobal + Abort)) -> TableHash {
    let part = Vec::from_slice(rt.alloc(), b"a").expect(rt, "memory");
    TableHash::new(vec![in rt.alloc(); (part, 5)].expect(rt, "memory"))
}

#[test]
fn a_list_answers_for_the_parts_that_it_has(rt: HostRuntime) {
    let hash = list_of_a(&rt);
    let two = symbol(&rt, "", 2);
    check(&rt, hash.index(&two, b"a") == 1, "a");
    check(&rt, hash.index(&two, b"c") == 0, "c");
}
