//! Legs, and what they share.

use mcv_base::{Ask, LegRequest, Reply, split_key};
use mcv_text::leg_text;
use std::alloc::{AllocError, Global};
use std::sync::Arc;

/// A value that requests and replies share.
pub fn shared(alloc: Global, bytes: &[u8]) -> Result<Arc<Vec<u8>>, AllocError> {
    let bytes = Vec::from_slice(alloc, bytes)?;
    Ok(Arc::new(alloc, bytes)?)
}

/// A hit.
pub fn hit(alloc: Global, flags: u32, cas: Option<u64>, body: &[u8]) -> Result<Reply, AllocError> {
    let body = shared(alloc, body)?;
    Ok(Reply::Hit { flags, cas, body })
}

/// The leg that sends a request on, under the rest of its first key.
pub fn leg_of(alloc: Global, ask: &Ask) -> Option<LegRequest> {
    let (_prefix, rest) = split_key(ask.keys.first()?.as_slice()).ok()?;
    let rest = Arc::new(alloc, rest).ok()?;
    let body = shared(alloc, ask.body.as_slice()).ok()?;
    Some(LegRequest {
        op: ask.op,
        rest,
        flags: ask.flags,
        exptime: ask.exptime,
        body,
        cas: ask.cas,
        delta: ask.delta,
    })
}

/// Its text.
pub fn leg_line(alloc: Global, ask: &Ask) -> Option<Vec<u8>> {
    let leg = leg_of(alloc, ask)?;
    leg_text(alloc, &leg).ok()
}
