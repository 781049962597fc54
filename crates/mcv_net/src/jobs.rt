//! What is done beside the loop, each in a thread of its own.

use mcv_poll::{Mailbox, Names, serve_names, serve_spool};
use mcv_serve::{Job, Keeper};
use mcv_spool::{Disk, Spool};
use std::net::Net;
use std::sync::{Arc, Wait};

/// Writes what the loop leaves in the mailbox into the spool, to the last record.
#[derive(Drop)]
pub(crate) struct MailKeeper<R: Drop> {
    pub(crate) rt: R,
    pub(crate) mailbox: Arc<Mailbox>,
}

impl<R: Wait + Drop> Keeper for MailKeeper<R> {
    fn keep<D: Disk>(self, spool: Spool<D>) {
        let mut spool = spool;
        serve_spool(&self.rt, &mut spool, &self.mailbox);
    }
}

/// Looks up the names of servers. A look-up may take the system as long as it likes, and nothing hangs on it at the end.
#[derive(Drop)]
pub(crate) struct NameFinder<R: Drop> {
    pub(crate) rt: R,
    pub(crate) names: Arc<Names>,
}

impl<R: Net + Wait + Drop> Job for NameFinder<R> {
    fn work(self) {
        serve_names(&self.rt, &self.names);
    }
}
