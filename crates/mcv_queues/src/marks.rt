//! How often each server failed in a row, and which servers are marked.

ghost use Rattle.std.specs.Prelude.{◌≡◌, ℕ, IfOk};
ghost use Rattle.mcv_queues.specs.Marks.{marks, servers, put_mark, answered_mark, lost_mark, checked_mark, no_mark};

use mcv_base::ServerId;
use std::alloc::{AllocError, Global};

/// How often a server failed in a row, and whether it is marked.
#[derive(Clone, Copy, Debug, PartialEq, Eq)]
pub struct ServerFailures {
    /// At most 4,294,967,295, where it stays.
    pub failures: u32,
    pub marked: bool,
}

/// The failures of all servers. A server that isn't in the table has no failures and no mark, and stays so.
#[derive(Drop)]
pub struct Marks {
    servers: Vec<ServerFailures>,
}

/// From this many failures in a row on `mark` marks a server.
const FAILURES: u32 = 3;

impl Marks {
    /// The marks of this many servers, of which none has failed. An error is that memory ran out.
    pub fn new(alloc: Global, count: usize) -> Result<Marks, AllocError>
        ensures marks { IfOk result (λ all. (s : ℕ) → marks all s ≡ no_mark) }
        ensures servers { IfOk result (λ all. servers all ≡ count) }
    {
        let unmarked = ServerFailures {
            failures: 0,
            marked: false,
        };
        let servers = vec![in alloc; unmarked; count]?;
        Ok(Marks { servers })
    }

    /// The failures of a server.
    pub fn get(&self, server: ServerId) -> ServerFailures
        ensures { result ≡ marks self.now server.0 }
    {
        match self.servers.get(server.0 as usize) {
            Some(mark) => *mark,
            None => ServerFailures {
                failures: 0,
                marked: false,
            },
        }
    }

    /// The server answered: its failures end.
    pub fn answered(&mut self, server: ServerId)
        ensures marks { marks self.new ≡ put_mark (servers self.old) (marks self.old) server.0 answered_mark }
        ensures servers { servers self.new ≡ servers self.old }
    {
        if let Some(mark) = self.servers.get_mut(server.0 as usize) {
            mark.failures = 0;
        }
    }

    /// The server failed once more.
    pub fn lost(&mut self, server: ServerId)
        ensures marks { marks self.new ≡ put_mark (servers self.old) (marks self.old) server.0 lost_mark }
        ensures servers { servers self.new ≡ servers self.old }
    {
        if let Some(mark) = self.servers.get_mut(server.0 as usize) {
            mark.failures = mark.failures.saturating_add(1);
        }
    }

    /// Marks the server if three or more failures came in a row.
    pub fn mark(&mut self, server: ServerId)
        ensures marks { marks self.new ≡ put_mark (servers self.old) (marks self.old) server.0 checked_mark }
        ensures servers { servers self.new ≡ servers self.old }
    {
        if let Some(mark) = self.servers.get_mut(server.0 as usize) {
            mark.marked = mark.marked || mark.failures >= FAILURES;
        }
    }

    /// Takes the mark away, and the failures with it.
    pub fn unmark(&mut self, server: ServerId)
        ensures marks { marks self.new ≡ put_mark (servers self.old) (marks self.old) server.0 (λ m. no_mark) }
        ensures servers { servers self.new ≡ servers self.old }
    {
        if let Some(mark) = self.servers.get_mut(server.0 as usize) {
            *mark = ServerFailures {
                failures: 0,
                marked: false,
            };
        }
    }
}
