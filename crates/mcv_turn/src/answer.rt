//! What requests are answered.

ghost use Rattle.std.specs.Prelude.{◌≡◌, ◌≤◌, [], map, vec_len, vec_capacity};
ghost use Rattle.mcv_turn.specs.Answers.{desk_fault};

use mcv_base::{Part, Request};
use mcv_core::CoreFault;
use mcv_hub::TakenReply;
use mcv_session::DeskFault;
use std::sync::Arc;

/// Who asks a request.
#[derive(Clone, Copy, Debug, PartialEq, Eq)]
pub enum Asker {
    /// A session: the number is one that each of its requests gets anew.
    Session(u64),
    /// A request of several hubs, for its key of this number alone. No other such request has its serial number.
    Key {
        request: usize,
        serial: u64,
        key: usize,
    },
}

/// The answer to a request: a reply for each of its keys, in their order, or why there is none.
#[derive(Drop)]
pub struct Answer {
    pub asker: Asker,
    pub request: Arc<Request>,
    pub outcome: Result<Vec<Part>, DeskFault>,
}

/// What a client is answered where the core refuses a call.
pub fn fault_for(fault: CoreFault) -> DeskFault
    ensures { result ≡ desk_fault fault }
{
    match fault {
        CoreFault::UnknownPrefix => DeskFault::NoRoute,
        CoreFault::BadKey => DeskFault::BadKey,
        CoreFault::Memory => DeskFault::Memory,
        CoreFault::LegsFull
        | CoreFault::ChapterFull
        | CoreFault::NothingWaiting
        | CoreFault::NoSuchLeg
        | CoreFault::Busy
        | CoreFault::ClockBack
        | CoreFault::NoSuchCall => DeskFault::Busy,
    }
}

/// The replies as a client gets them.
pub(crate) fn into_parts(taken: Vec<TakenReply>, parts: Vec<Part>) -> Vec<Part>
    requires empty { parts.items ≡ [] }
    requires room { vec_len taken ≤ vec_capacity parts }
    ensures { result.items ≡ map (λ t. t.reply) taken.items }
{
    let mut parts = parts;
    for reply in taken {
        parts.push_reserved(reply.into_reply());
    }
    parts
}
