//! The report on a fault.

ghost use Rattle.std.specs.Prelude.{IfOk, option_map};
ghost use Rattle.mcv_faults.specs.TextPlace.{IsPlaceAt};
ghost use Rattle.mcv_names.specs.Fault.{fault_path};
ghost use Rattle.mcv_show.specs.Reported.{IsFaultText};

use mcv_faults::{TextPlace, standing_of};
use mcv_input::RunFault;
use mcv_names::ConfigFault;
use mcv_report::{pair_refused_text, refused_text, text_refused_text, window_refused_text};
use std::alloc::{AllocError, Global};

/// The text of the report on a fault of the configuration or of the certificate; of another fault, none.
pub(crate) fn fault_text(
    alloc: Global,
    input: &[u8],
    fault: &RunFault,
) -> Result<Vec<u8>, AllocError>
    ensures { IfOk result (λ text. IsFaultText input.now fault.now text.items) }
{
    match fault {
        RunFault::Config(fault) => config_fault_text(alloc, input, fault),
        RunFault::CertificateText(fault) => text_refused_text(alloc, *fault),
        RunFault::Certificate(fault) => pair_refused_text(alloc, *fault),
        RunFault::Window => window_refused_text(alloc),
        RunFault::Line => Ok(Vec::new(alloc)),
        RunFault::NoRoute => Ok(Vec::new(alloc)),
        RunFault::Memory => Ok(Vec::new(alloc)),
        RunFault::Device => Ok(Vec::new(alloc)),
    }
}

/// The text of the report on a fault of the configuration.
fn config_fault_text(
    alloc: Global,
    input: &[u8],
    fault: &ConfigFault,
) -> Result<Vec<u8>, AllocError>
    ensures { IfOk result (λ text. IsFaultText input.now (RunFault.Config fault.now) text.items) }
{
    let place = place_of(alloc, input, fault)?;
    refused_text(alloc, fault, place)
}

/// Where the value at fault stands, where that is known.
fn place_of(
    alloc: Global,
    input: &[u8],
    fault: &ConfigFault,
) -> Result<Option<TextPlace>, AllocError>
    ensures { IfOk result (λ place. IsPlaceAt input.now (fault_path fault.now) (option_map (λ p. (p.line, p.column)) place)) }
{
    let standing = standing_of(alloc, input, fault.path().as_bytes())?;
    Ok(standing.place)
}
