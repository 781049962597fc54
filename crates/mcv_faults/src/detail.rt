//! The second line of a fault of the configuration.

ghost use Rattle.std.specs.Prelude.{◌≡◌, IfOk, option_map, string_bytes};
ghost use Rattle.mcv_faults.specs.FaultLine.{IsDetailOf, fault_line};

use crate::line::fault_line;
use crate::standing::{Standing, standing_of};
use mcv_names::{ConfigFault, FaultKind};
use std::alloc::{AllocError, Global};

/// What is said of a fault of a configuration, which is the input, behind its number and its path: its name, the text at
/// fault, and where it stands.
pub fn fault_detail(alloc: Global, input: &[u8], fault: &ConfigFault) -> Result<Vec<u8>, AllocError>
    ensures { IfOk result (λ line. IsDetailOf input.now fault.now line.items) }
{
    let standing = standing_of(alloc, input, fault.path().as_bytes())?;
    standing_line(alloc, fault.kind, &standing)
}

/// The line on a fault of a value of which this is known.
fn standing_line(alloc: Global, kind: FaultKind, standing: &Standing) -> Result<Vec<u8>, AllocError>
    ensures { IfOk result (λ line. line.items
        ≡ fault_line kind (option_map string_bytes standing.now.text) (option_map (λ p. (p.line, p.column)) standing.now.place)) }
{
    fault_line(alloc, kind, text_of(standing), standing.place)
}

/// The text at fault, where it is one.
fn text_of(standing: &Standing) -> Option<&str>
    ensures { option_map (λ t. t.now) result ≡ option_map string_bytes standing.now.text }
{
    match &standing.text {
        Some(text) => Some(text.as_str()),
        None => None,
    }
}
