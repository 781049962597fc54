//! Which legs may be sent once more when their connection is lost.

ghost use Rattle.std.specs.Prelude.{◌≡◌};
ghost use Rattle.mcv_lines.specs.Repeat.{may_repeat};

use mcv_base::Op;

/// How a connection was lost, as far as a leg in flight over it is concerned.
#[derive(Clone, Copy, Debug, PartialEq, Eq)]
pub enum Loss {
    /// No byte of the leg's reply had come, and the connection had carried another reply before: its server may have closed it while
    /// it was idle.
    Idle,
    /// Something had come that is no reply, or the front of one, or the connection was new.
    Broken,
    /// The leg's time had run out. Its server may still perform it.
    Late,
}

/// Whether a leg of this operation, of which something may have been written, may be sent once more: to perform it twice leaves
/// what once does. One that stores a value or changes a number might overwrite what another client has written between, or count
/// twice. What is late may be performed later than anything that is sent now, so it isn't sent again.
pub fn may_ask_again(op: Op, loss: Loss) -> bool
    ensures { result ≡ may_repeat op loss }
{
    match loss {
        Loss::Idle => !(op.is_storing() || op.is_adjusting()),
        Loss::Broken | Loss::Late => false,
    }
}
