//! The proxy that `mcv run` starts.

ghost use Rattle.std.specs.Prelude.{IfErr, OnOk};
ghost use Rattle.std.specs.Arc.{arc_value};
ghost use Rattle.mcv_command.specs.Program.{Serves};
ghost use Rattle.mcv_input.specs.Fault.{IsOutside};
ghost use Rattle.mcv_words.specs.Words.{order_of};

use mcv_check::Accepted;
use mcv_input::RunFault;
use mcv_words::RunOptions;
use std::alloc::Global;
use std::io::Write;
use std::sync::Arc;

/// A proxy for clients.
pub trait Proxy {
    /// What it does where it serves routes.
    ghost serves: { Self → Serves };

    /// Serves clients as the options say, by the routes.
    fn serve<W: Write>(
        &self,
        alloc: Global,
        accepted: Arc<Accepted>,
        options: RunOptions<'_>,
        out: &mut W,
    ) -> Result<(), RunFault>
        ensures served { OnOk result (serves self.now (arc_value accepted) (order_of options.entry) (W.contents out.old) (W.contents out.new)) }
        ensures fault { IfErr result IsOutside };
}
