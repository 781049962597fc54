//! The names of faults.

ghost use Rattle.std.specs.Prelude.{◌≡◌};
ghost use Rattle.mcv_faults.specs.FaultName.{fault_name};

use mcv_names::FaultKind;

/// The name of a fault.
pub fn fault_name(kind: FaultKind) -> &'static str
    ensures { result.now ≡ fault_name kind }
{
    match kind {
        FaultKind::NotJson => "not JSON",
        FaultKind::UnknownKey => "unknown key or operation",
        FaultKind::WrongKind => "wrong kind of value, or missing key",
        FaultKind::UnknownHandle => "unknown route handle",
        FaultKind::UnknownPool => "unknown pool",
        FaultKind::Empty => "empty list",
        FaultKind::Limit => "over a limit",
        FaultKind::BadServer => "bad server text",
        FaultKind::AliasTwice => "alias that comes twice",
        FaultKind::LeftOut => "left out of mcv",
    }
}
