//! What an operator asks about.

ghost use Rattle.std.specs.Prelude.{◌≡◌, IfOk};
ghost use Rattle.mcv_admin.specs.Replies.{health_status, health_text};

use mcv_http::Status;
use mcv_metrics::Snapshot;
use std::alloc::{AllocError, Global};

/// Whether clients are served.
#[derive(Clone, Copy, Debug, PartialEq, Eq)]
pub enum Health {
    /// They are accepted.
    Serving,
    /// No more are accepted.
    Draining,
    /// They are accepted, and the spool refuses records.
    Refusing,
}

impl Health {
    /// The status of a response that says it.
    pub(crate) fn status(self) -> Status
        ensures { result ≡ health_status self }
    {
        match self {
            Health::Serving => Status::Done,
            Health::Draining | Health::Refusing => Status::Unavailable,
        }
    }

    /// Its text.
    pub(crate) fn text(self) -> &'static [u8]
        ensures { result.now ≡ health_text self }
    {
        match self {
            Health::Serving => b"ok\n",
            Health::Draining => b"draining\n",
            Health::Refusing => b"the spool refuses records\n",
        }
    }
}

/// What is asked of a proxy.
pub trait Panel {
    ghost use Rattle.std.specs.Prelude.{ℕ};
    ghost use Rattle.mcv_admin.specs.declared.panel.Health.{Health};
    ghost use Rattle.mcv_metrics.specs.declared.snapshot.Snapshot.{Snapshot};

    /// What it may say that has been counted.
    ghost has_counted: { Self → Snapshot → Type 0 };

    /// What it may say of its clients.
    ghost is_in: { Self → Health → Type 0 };

    /// It was asked to drain within so many seconds.
    ghost drains: { Self → ℕ → Self → Type 0 };

    /// What has been counted up to now.
    fn snapshot(&self, alloc: Global) -> Result<Snapshot, AllocError>
        ensures { IfOk result (has_counted self.now) };

    /// Whether clients are served now.
    fn health(&self) -> Health
        ensures { is_in self.now result };

    /// Accepts no more clients from now on, and ends once nothing is left to do, or after so many seconds.
    fn drain(&mut self, seconds: u64)
        ensures { drains self.old seconds self.new };
}
