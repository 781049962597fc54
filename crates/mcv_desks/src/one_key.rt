//! The keys of a request, each asked alone. So a hub keeps of a request with keys of several hubs what it was asked itself.

ghost use Rattle.std.specs.Prelude.{◌≡◌, [], ◌∷◌, IfOk, map, option_to_list, slice_get};
ghost use Rattle.std.specs.Arc.{arc_value};
ghost use Rattle.mcv_desks.specs.OneKey.{AreOfKeys, only_key};
ghost use Rattle.mcv_text.specs.Request.{request_value};

use mcv_base::{Ask, Request};
use mcv_turn::key_count;
use std::alloc::{AllocError, Global};
use std::sync::Arc;

/// A list of one word.
fn list_of_one(alloc: Global, word: &[u8]) -> Result<Vec<Vec<u8>>, AllocError>
    ensures { IfOk result (λ v. map (λ w. w.items) v.items ≡ word.now ∷ []) }
{
    let copy = Vec::from_slice(alloc, word)?;
    let mut list = Vec::with_capacity(alloc, 1)?;
    list.push_reserved(copy);
    Ok(list)
}

/// The word of this number alone, counted from 0; none where there is no such one.
fn word_alone(alloc: Global, words: &[Vec<u8>], key: usize) -> Result<Vec<Vec<u8>>, AllocError>
    ensures { IfOk result (λ v. map (λ w. w.items) v.items ≡ option_to_list (slice_get (map (λ w. w.items) words.now) key)) }
{
    match words.get(key) {
        Some(word) => list_of_one(alloc, word.as_slice()),
        None => Ok(Vec::new(alloc)),
    }
}

/// What a request asks, with the key word of this number alone.
fn ask_of_key(alloc: Global, ask: &Ask, key: usize) -> Result<Ask, AllocError>
    ensures { IfOk result (λ a. request_value (Request.Ask a) ≡ only_key (request_value (Request.Ask ask.now)) key) }
{
    let body = Arc::try_clone(&ask.body)?;
    let keys = word_alone(alloc, ask.keys.as_slice(), key)?;
    Ok(Ask {
        op: ask.op,
        keys,
        flags: ask.flags,
        exptime: ask.exptime,
        body,
        cas: ask.cas,
        delta: ask.delta,
        noreply: ask.noreply,
    })
}

/// The same request, with the key word of this number alone, counted from 0; with none where it has no such one.
fn request_of_key(alloc: Global, request: &Request, key: usize) -> Result<Request, AllocError>
    ensures { IfOk result (λ r. request_value r ≡ only_key (request_value request.now) key) }
{
    match request {
        Request::Ask(ask) => Ok(Request::Ask(ask_of_key(alloc, ask, key)?)),
        Request::Version => Ok(Request::Version),
        Request::Quit => Ok(Request::Quit),
    }
}

/// A request for each key word of a request, in the order of the keys.
pub(crate) fn requests_of_keys(
    alloc: Global,
    request: &Request,
) -> Result<Vec<Arc<Request>>, AllocError>
    ensures { IfOk result (λ v. AreOfKeys (request_value request.now) v.items) }
{
    let mut requests = Vec::new(alloc);
    for key in 0..key_count(request) {
        let alone = request_of_key(alloc, request, key)?;
        let shared = Arc::new(alloc, alone)?;
        requests.push(shared)?;
    }
    Ok(requests)
}
