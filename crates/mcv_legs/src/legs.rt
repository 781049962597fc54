//! The path from the bytes read to the bytes written.

ghost use Rattle.std.specs.Prelude.{◌≡◌, ◌≢◌, ℕ, List, option_map, IfSome, IfOk, IfErr, OnOk, slice_index};
ghost use Rattle.std.specs.Io.KnownBytes.{Appends};
ghost use Rattle.mcv_route.specs.View.{view};
ghost use Rattle.mcv_rules.specs.RouteCall.{situation_of};
ghost use Rattle.mcv_legs.specs.Answer.{IsAnswer, entry_for, text_of};
ghost use Rattle.mcv_legs.specs.Fault.{IsRunFault};

use crate::device::read_input;
use crate::request::read_request;
use crate::text::legs_text;
use mcv_base::{Moment, Prefix, hashed_part};
use mcv_input::{RunFault, read_routes, write_text};
use mcv_pools::{Fnv, Servers, choose};
use mcv_route::{Route, Routes};
use mcv_rules::{Eval, Outcomes};
use std::alloc::{AllocError, Global};
use std::io::{Read, Write};

/// Reads a request line and a configuration, and writes the legs that the request sends at the
/// moment before any outcome, and the reply that there is by then. The line is judged first, then
/// the configuration, then whether it has a route. Where that is a fault, nothing is written. The
/// reader may be left with bytes, since no more is read than can matter.
pub fn run_legs<R: Read, W: Write>(
    alloc: Global,
    reader: &mut R,
    writer: &mut W,
    moment: Moment,
) -> Result<(), RunFault>
    ensures ok { OnOk result ((text : List ℕ) × IfSome (R.remaining reader.old) (λ input. IsAnswer moment.0 input text)
        × Appends (W.contents writer.old) (W.contents writer.new) text) }
    ensures fault { IfErr result (λ fault. IfSome (R.remaining reader.old) (λ input. IsRunFault input fault)) }
    ensures silent { IfErr result (λ fault. fault ≢ RunFault.Device → W.contents writer.new ≡ W.contents writer.old) }
{
    let input = read_input(alloc, reader)?;
    let text = answer_text(alloc, input.as_slice(), moment)?;
    write_text(writer, text.as_slice())?;
    Ok(())
}

/// The text that answers an input.
fn answer_text(alloc: Global, input: &[u8], moment: Moment) -> Result<Vec<u8>, RunFault>
    ensures ok { IfOk result (λ text. IsAnswer moment.0 input.now text.items) }
    ensures fault { IfErr result (λ fault. IsRunFault input.now fault) }
{
    let Some(asked) = read_request(input) else {
        return Err(RunFault::Line);
    };
    let routes = read_routes(alloc, asked.configuration)?;
    let Some(route) = route_for(&routes, &asked.prefix) else {
        return Err(RunFault::NoRoute);
    };
    let choice = choose(alloc, &Fnv, routes.symbols(), hashed_part(&asked.rest))?;
    let since = routes.since(moment);
    let eval = Eval::new(alloc, route, asked.op, &asked.rest, since, &choice)?;
    Ok(first_text(alloc, &eval, routes.servers())?)
}

/// The text of the legs that a call sends before any outcome, and of the reply that it has by then.
fn first_text(alloc: Global, eval: &Eval, servers: &Servers) -> Result<Vec<u8>, AllocError>
    ensures { IfOk result (λ text. text.items ≡ text_of servers.now eval.now.tree (situation_of eval.now) (slice_index eval.now.choice)) }
{
    let none = Outcomes::of(alloc, &[])?;
    let legs = eval.launched(alloc, &none)?;
    let reply = eval.status(&none).outcome(&[]);
    legs_text(alloc, servers, legs.as_slice(), reply)
}

/// The first route that has the prefix among its aliases.
fn route_for<'a>(routes: &'a Routes, prefix: &Prefix) -> Option<&'a Route>
    ensures { option_map (λ route. view route.now) result ≡ option_map (λ entry. entry.tree) (entry_for prefix.now routes.now) }
{
    routes.route(routes.route_of(prefix)?)
}
