//! How many clients are served at once.

ghost use Rattle.std.specs.Prelude.{◌≡◌, ◌<◌, ◌+◌, None, Some, IfOk, if◌then◌else◌};
ghost use Rattle.mcv_net.specs.Seats.{has_room, is_told};

use crate::service::Service;
use mcv_words::MaxClients;
use std::alloc::{AllocError, Global};
use std::sync::Arc;

/// The seat of a client, which is counted as one while it is there. It is free again once it is dropped.
pub struct Seat {
    shared: Arc<()>,
    service: Service,
}

impl Drop for Seat {
    fn drop(self) {
        let Seat { shared, service } = self;
        drop(shared);
        service.note_gone();
    }
}

/// The seats of clients, and how many clients were refused one.
#[derive(Drop)]
pub(crate) struct Seats {
    most: Option<MaxClients>,
    /// Each seat that is taken shares it.
    shared: Arc<()>,
    refused: u64,
}

/// Whether there is a seat more where so many are taken.
fn has_room(most: Option<MaxClients>, taken: u64) -> bool
    ensures { result ≡ has_room most taken }
{
    match most {
        Some(most) => taken < most.count,
        None => true,
    }
}

/// Whether an operator is told of the refusal of this number, from 1.
fn is_told(number: u64) -> bool
    ensures { result ≡ is_told number }
{
    number == 1 || number % 1000 == 0
}

impl Seats {
    pub(crate) fn new(alloc: Global, most: Option<MaxClients>) -> Result<Seats, AllocError>
        ensures { IfOk result (λ seats. seats.most ≡ most) }
    {
        Ok(Seats {
            most,
            shared: Arc::new(alloc, ())?,
            refused: 0,
        })
    }

    /// A seat, whose client is counted; None where all are taken.
    pub(crate) fn take(&self, service: &Service) -> Option<Seat> {
        let taken = Arc::strong_count(&self.shared) - 1;
        if !has_room(self.most, taken as u64) {
            return None;
        }
        let Ok(shared) = Arc::try_clone(&self.shared) else {
            return None;
        };
        service.note_accepted();
        Some(Seat {
            shared,
            service: service.another(),
        })
    }

    /// Counts a client that got none. How many these are, where an operator is to be told.
    pub(crate) fn refuse(&mut self) -> Option<u64>
        ensures count { self.old.refused < 18446744073709551615 → self.new.refused ≡ self.old.refused + 1 }
        ensures told { result ≡ if is_told self.new.refused then Some self.new.refused else None }
        ensures most { self.new.most ≡ self.old.most }
    {
        if self.refused < u64::MAX {
            self.refused += 1;
        }
        if is_told(self.refused) {
            Some(self.refused)
        } else {
            None
        }
    }
}
