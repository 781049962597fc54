//! Which replies are for the keys of a request.

ghost use Rattle.std.specs.Prelude.{◌≡◌, ◌↔◌, length, option_map, true, IfErr, IfOk};
ghost use Rattle.mcv_text.specs.Request.{request_value};
ghost use Rattle.mcv_session.specs.Desk.{keys_of};
ghost use Rattle.mcv_turn.specs.Answers.{AreFor, IsFor, IsRouted, IsUnrouted, word_at};

use mcv_base::{Op, Request, Rest, key_words_have_one_reading, split_key};
use mcv_core::CoreFault;
use mcv_hub::TakenReply;
use mcv_route::Routes;

/// A key word that a route takes.
#[derive(Drop)]
struct RoutedKey {
    /// The number of its route.
    route: usize,
    /// The word without its routing prefix.
    rest: Rest,
}

/// How many keys a request has.
pub fn key_count(request: &Request) -> usize
    ensures { result ≡ length (keys_of (request_value request.now)) }
{
    match request {
        Request::Ask(ask) => ask.keys.len(),
        Request::Version | Request::Quit => 0,
    }
}

/// The operation of a request, and one of its key words.
fn key_of(request: &Request, key: usize) -> Option<(Op, &[u8])>
    ensures { option_map (λ k. (k.0, k.1.now)) result ≡ word_at (request_value request.now) key }
{
    let Request::Ask(ask) = request else {
        return None;
    };
    let word = ask.keys.get(key)?;
    Some((ask.op, word.as_slice()))
}

/// The route of a key word, and its rest. An error is BadKey, where it is no key, or UnknownPrefix, where no route has its
/// prefix.
fn routed_key(routes: &Routes, word: &[u8]) -> Result<RoutedKey, CoreFault>
    ensures routed { IfOk result (λ key. IsRouted routes.now word.now key.route key.rest) }
    ensures err { IfErr result (IsUnrouted routes.now word.now) }
{
    let Ok((prefix, rest)) = split_key(word) else {
        return Err(CoreFault::BadKey);
    };
    match routes.route_of(&prefix) {
        Some(route) => Ok(RoutedKey { route, rest }),
        None => Err(CoreFault::UnknownPrefix),
    }
}

/// Whether the call of a reply asked this operation of this route and rest.
fn has_asked(taken: &TakenReply, op: Op, routed: &RoutedKey) -> bool
    ensures { (result ≡ true) ↔ ((taken.now.asked.op ≡ op) × (taken.now.asked.route ≡ routed.now.route) × (taken.now.asked.rest ≡ routed.now.rest)) }
{
    taken.op() == op && taken.route() == routed.route && *taken.rest() == routed.rest
}

/// Whether a reply is for this key: its call asked the operation of the request, of the key's route and rest.
pub(crate) fn is_for(routes: &Routes, request: &Request, key: usize, taken: &TakenReply) -> bool
    ensures { (result ≡ true) ↔ IsFor routes.now (request_value request.now) key taken.now }
{
    key_words_have_one_reading();
    let Some((op, word)) = key_of(request, key) else {
        return false;
    };
    match routed_key(routes, word) {
        Ok(routed) => has_asked(taken, op, &routed),
        Err(_) => false,
    }
}

/// Whether replies are for the first keys of a request, in their order.
pub(crate) fn are_for(routes: &Routes, request: &Request, taken: &[TakenReply]) -> bool
    ensures { (result ≡ true) ↔ AreFor routes.now (request_value request.now) taken.now }
{
    for key in 0..taken.len() {
        if !is_for(routes, request, key, &taken[key]) {
            return false;
        }
    }
    true
}
