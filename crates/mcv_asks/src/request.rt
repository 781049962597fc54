//! What a leg asks its server.

ghost use Rattle.std.specs.Prelude.{◌≡◌, IfOk, Some, option_copied, option_map};
ghost use Rattle.std.specs.Arc.{arc_value};
ghost use Rattle.mcv_base.specs.Reply.{part_value, reply_value};
ghost use Rattle.mcv_route.specs.View.{view};
ghost use Rattle.mcv_asks.specs.Asks.{client_fields, fields_at, fields_of, fields_seen, hit_fields, fields_in, no_fields};
ghost use Rattle.mcv_asks.specs.Hits.{replies_of, situation_of};
ghost use Rattle.mcv_asks.specs.WarmUps.{warming};

use crate::hit::{Call, warm_reply};
use crate::warm_up::{WarmUp, warm_up_of};
use mcv_base::{LegRequest, Op, Part, Reply, Request, Rest};
use mcv_route::{Launch, Route};
use std::alloc::{AllocError, Global};
use std::sync::Arc;

/// What a request has beside its operation and its key. Fields that the operation hasn't are 0, empty or None.
#[derive(Drop)]
pub struct Fields {
    pub flags: u32,
    /// Seconds, or a moment, as memcached takes it.
    pub exptime: i64,
    pub body: Arc<Vec<u8>>,
    pub cas: Option<u64>,
    /// By how much incr and decr change the number.
    pub delta: u64,
}

/// What a call's leg asks its server: an add that a WarmUpRoute sends has the hit of its `warm`, and any other leg what
/// the client asked. It shares the bytes of values.
pub fn leg_request(
    alloc: Global,
    route: &Route,
    call: Call,
    request: Option<&Request>,
    launch: &Launch,
    rest: &Arc<Rest>,
) -> Result<LegRequest, AllocError>
    ensures op { IfOk result (λ r. r.op ≡ launch.now.op) }
    ensures rest { IfOk result (λ r. arc_value r.rest ≡ arc_value rest.now) }
    ensures fields { IfOk result (λ r. fields_in r ≡ fields_of (view route.now) (situation_of call.entry) (option_copied request.entry) (replies_of call.entry) launch.now.position) }
{
    let position = launch.position.steps();
    let fields = fields_at(alloc, call, request, position, warm_up_of(route, position))?;
    with_fields(launch.op, rest, fields)
}

/// What a leg asks its server that no call waits for any more, or whose record the spool held at the start: what the
/// client asked, if there is a client.
pub fn client_request(
    alloc: Global,
    request: Option<&Request>,
    op: Op,
    rest: &Arc<Rest>,
) -> Result<LegRequest, AllocError>
    ensures op { IfOk result (λ r. r.op ≡ op) }
    ensures rest { IfOk result (λ r. arc_value r.rest ≡ arc_value rest.now) }
    ensures fields { IfOk result (λ r. fields_in r ≡ client_fields (option_copied request.entry)) }
{
    with_fields(op, rest, client_fields(alloc, request)?)
}

fn with_fields(op: Op, rest: &Arc<Rest>, fields: Fields) -> Result<LegRequest, AllocError>
    ensures op { IfOk result (λ r. r.op ≡ op) }
    ensures rest { IfOk result (λ r. arc_value r.rest ≡ arc_value rest.now) }
    ensures fields { IfOk result (λ r. fields_in r ≡ fields_seen fields) }
{
    Ok(LegRequest {
        op,
        rest: Arc::try_clone(rest)?,
        flags: fields.flags,
        exptime: fields.exptime,
        body: fields.body,
        cas: fields.cas,
        delta: fields.delta,
    })
}

/// The fields of the leg at this position, which this WarmUpRoute sends as its add, if any does.
fn fields_at(
    alloc: Global,
    call: Call,
    request: Option<&Request>,
    position: &[usize],
    warm_up: Option<WarmUp>,
) -> Result<Fields, AllocError>
    ensures { IfOk result (λ f. fields_seen f ≡ fields_at (option_copied request.entry) (situation_of call.entry) (replies_of call.entry) position.now (option_map warming warm_up.entry)) }
{
    match warm_up {
        None => client_fields(alloc, request),
        Some(warm_up) => {
            let reply = warm_reply(alloc, call, position, warm_up)?;
            hit_fields(alloc, warm_up.exptime, reply)
        }
    }
}

/// The fields of what the client asked, if there is a client.
fn client_fields(alloc: Global, request: Option<&Request>) -> Result<Fields, AllocError>
    ensures { IfOk result (λ f. fields_seen f ≡ client_fields (option_copied request.entry)) }
{
    match request {
        Some(Request::Ask(ask)) => Ok(Fields {
            flags: ask.flags,
            exptime: ask.exptime,
            body: Arc::try_clone(&ask.body)?,
            cas: ask.cas,
            delta: ask.delta,
        }),
        Some(Request::Version) => no_fields(alloc),
        Some(Request::Quit) => no_fields(alloc),
        None => no_fields(alloc),
    }
}

/// The fields of an add of this exptime: the value and the flags of the hit.
fn hit_fields(alloc: Global, exptime: u32, reply: Option<Part>) -> Result<Fields, AllocError>
    ensures { IfOk result (λ f. fields_seen f ≡ hit_fields exptime (option_map part_value reply)) }
{
    match reply {
        Some(Part::Owned(reply)) => owned_fields(alloc, exptime, &reply),
        Some(Part::Fixed(_)) => no_fields(alloc),
        None => no_fields(alloc),
    }
}

fn owned_fields(alloc: Global, exptime: u32, reply: &Reply) -> Result<Fields, AllocError>
    ensures { IfOk result (λ f. fields_seen f ≡ hit_fields exptime (Some (reply_value reply.now))) }
{
    match reply {
        Reply::Hit {
            flags,
            cas: _,
            body,
        } => Ok(Fields {
            flags: *flags,
            exptime: i64::from(exptime),
            body: Arc::try_clone(body)?,
            cas: None,
            delta: 0,
        }),
        Reply::Miss => no_fields(alloc),
        Reply::Stored => no_fields(alloc),
        Reply::NotStored => no_fields(alloc),
        Reply::Exists => no_fields(alloc),
        Reply::NotFound => no_fields(alloc),
        Reply::Deleted => no_fields(alloc),
        Reply::Touched => no_fields(alloc),
        Reply::Number(_) => no_fields(alloc),
        Reply::Fault(_) => no_fields(alloc),
    }
}

/// No fields.
fn no_fields(alloc: Global) -> Result<Fields, AllocError>
    ensures { IfOk result (λ f. fields_seen f ≡ no_fields) }
{
    Ok(Fields {
        flags: 0,
        exptime: 0,
        body: Arc::new(alloc, Vec::new(alloc))?,
        cas: None,
        delta: 0,
    })
}
