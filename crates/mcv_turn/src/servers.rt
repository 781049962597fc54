//! What a desk knows of the servers between two events.

ghost use Rattle.std.specs.Prelude.{◌≡◌, ◌++◌, OnErr, OnOk};
ghost use Rattle.mcv_turn.specs.Shown.{TellsMarks, is_known_marked, told_of};

use crate::came::Marked;
use mcv_base::ServerId;
use mcv_hub::{Guard, HubLedger};
use std::alloc::{AllocError, Global};
use std::mem;
use std::sync::ledger::Ledger;

/// What is known of one server.
#[derive(Clone, Copy)]
struct Standing {
    /// A leg may wait for it that can be sent.
    is_due: bool,
    /// A leg of it that is in the spool is to be sent again.
    is_replayed: bool,
    /// It is marked.
    is_marked: bool,
    /// It was told last that it is marked.
    is_told_marked: bool,
}

impl Standing {
    /// Whether the server is marked, which is told where it was told otherwise last. An error is that there is no memory for that, and
    /// nothing is told then.
    fn note_mark(
        &mut self,
        server: ServerId,
        is_marked: bool,
        marks: &mut Vec<Marked>,
    ) -> Result<(), AllocError>
        ensures known { self.new.is_marked ≡ is_marked }
        ensures now { OnOk result (self.new.is_told_marked ≡ is_marked) }
        ensures told { OnOk result (marks.new.items ≡ marks.old.items ++ told_of server self.old.is_told_marked is_marked) }
        ensures still { OnErr result (self.new.is_told_marked ≡ self.old.is_told_marked) }
        ensures untold { OnErr result (marks.new.items ≡ marks.old.items) }
    {
        self.is_marked = is_marked;
        if self.is_told_marked == is_marked {
            return Ok(());
        }
        marks.push(Marked { server, is_marked })?;
        self.is_told_marked = is_marked;
        Ok(())
    }
}

/// What is known of the servers, by their numbers.
#[derive(Drop)]
pub(crate) struct Servers {
    all: Vec<Standing>,
}

impl Servers {
    /// So many servers, for none of which a leg waits.
    pub(crate) fn new(alloc: Global, count: usize) -> Result<Servers, AllocError> {
        let mut all = Vec::new(alloc);
        let standing = Standing {
            is_due: false,
            is_replayed: false,
            is_marked: false,
            is_told_marked: false,
        };
        all.resize(count, standing)?;
        Ok(Servers { all })
    }

    /// How many there are.
    pub(crate) fn count(&self) -> usize {
        self.all.len()
    }

    /// A leg of the server may be sent.
    pub(crate) fn note_due(&mut self, server: ServerId) {
        if let Some(standing) = self.all.get_mut(server.0 as usize) {
            standing.is_due = true;
        }
    }

    /// Whether a leg of the server of this number may be sent. It isn't looked at again before that is noted again.
    pub(crate) fn take_due(&mut self, number: usize) -> bool {
        match self.all.get_mut(number) {
            Some(standing) => mem::replace(&mut standing.is_due, false),
            None => false,
        }
    }

    /// A leg of the server that is in the spool is to be sent again.
    pub(crate) fn note_replay(&mut self, server: ServerId) {
        if let Some(standing) = self.all.get_mut(server.0 as usize) {
            standing.is_replayed = true;
            standing.is_due = true;
        }
    }

    /// The same of all servers.
    pub(crate) fn note_replays(&mut self) {
        for standing in self.all.iter_mut() {
            standing.is_replayed = true;
            standing.is_due = true;
        }
    }

    /// Whether a leg of the server is to be sent again. None is before that is noted again.
    pub(crate) fn take_replay(&mut self, server: ServerId) -> bool {
        match self.all.get_mut(server.0 as usize) {
            Some(standing) => mem::replace(&mut standing.is_replayed, false),
            None => false,
        }
    }

    /// Notes which servers are marked, and tells each whose mark isn't as it was told last, in the order of their numbers. Without
    /// memory for one it is told another time.
    pub(crate) fn note_marks<B: HubLedger, T: Ledger>(
        &mut self,
        guard: &Guard<'_, B, T>,
        marks: &mut Vec<Marked>,
    )
        ensures { TellsMarks guard.now marks.old.items marks.new.items }
    {
        for number in 0..u32::try_from(self.all.len()).unwrap_or(u32::MAX) {
            self.note_mark(guard, ServerId(number), marks);
        }
    }

    /// The same of one server.
    fn note_mark<B: HubLedger, T: Ledger>(
        &mut self,
        guard: &Guard<'_, B, T>,
        server: ServerId,
        marks: &mut Vec<Marked>,
    )
        ensures { TellsMarks guard.now marks.old.items marks.new.items }
    {
        let Some(standing) = self.all.get_mut(server.0 as usize) else {
            return;
        };
        let _ = standing.note_mark(server, guard.core().marked(server), marks);
    }

    /// Whether the server was marked when its hub was looked at last.
    pub(crate) fn is_marked(&self, server: ServerId) -> bool
        ensures { result ≡ is_known_marked self.now server }
    {
        match self.all.get(server.0 as usize) {
            Some(standing) => standing.is_marked,
            None => false,
        }
    }
}
