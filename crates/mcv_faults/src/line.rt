//! What is said of a fault beside its number and its path.

ghost use Rattle.std.specs.Prelude.{◌≡◌, ◌++◌, IfOk, OnOk, option_map};
ghost use Rattle.mcv_faults.specs.FaultLine.{fault_line, quoted, standing};

use crate::name::fault_name;
use crate::place::TextPlace;
use mcv_base::push_number;
use mcv_cert::push_escaped;
use mcv_names::FaultKind;
use std::alloc::{AllocError, Global};

/// The name of a fault, the text at fault where it is one, and where it stands where that is known.
pub fn fault_line(
    alloc: Global,
    kind: FaultKind,
    text: Option<&str>,
    place: Option<TextPlace>,
) -> Result<Vec<u8>, AllocError>
    ensures { IfOk result (λ line. line.items
        ≡ fault_line kind (option_map (λ t. t.now) text.entry) (option_map (λ p. (p.line, p.column)) place)) }
{
    let mut line = Vec::from_slice(alloc, fault_name(kind).as_bytes())?;
    push_quoted(&mut line, text)?;
    push_standing(&mut line, place)?;
    Ok(line)
}

fn push_quoted(line: &mut Vec<u8>, text: Option<&str>) -> Result<(), AllocError>
    ensures { OnOk result (line.new.items ≡ line.old.items ++ quoted (option_map (λ t. t.now) text.entry)) }
{
    let Some(text) = text else {
        return Ok(());
    };
    line.extend_from_slice(b" \"")?;
    push_escaped(line, text.as_bytes())?;
    line.extend_from_slice(b"\"")
}

fn push_standing(line: &mut Vec<u8>, place: Option<TextPlace>) -> Result<(), AllocError>
    ensures { OnOk result (line.new.items ≡ line.old.items ++ standing (option_map (λ p. (p.line, p.column)) place)) }
{
    let Some(place) = place else {
        return Ok(());
    };
    line.extend_from_slice(b", line ")?;
    push_number(line, place.line)?;
    line.extend_from_slice(b" column ")?;
    push_number(line, place.column)
}
