//! What the program says on standard error behind the line of a fault of the configuration.

ghost use Rattle.std.specs.Prelude.{◌≡◌, ℕ, List, IfOk, option_map, string_bytes};
ghost use Rattle.std.specs.Str.Lossy.{utf8_lossy};
ghost use Rattle.mcv_command.specs.Detail.{IsSecondLine, config_fault, ended_fault, says_more};
ghost use Rattle.mcv_faults.specs.FaultLine.{IsDetailOf};

use crate::stop::{Ending, Stop};
use mcv_faults::fault_detail;
use mcv_input::RunFault;
use mcv_names::ConfigFault;
use mcv_words::Job;
use std::alloc::{AllocError, Global};

/// Whether more is said of a fault of the configuration: the job is done on a configuration alone, which is then the whole
/// input, and `-q` isn't given.
pub fn says_more(job: &Job<'_>) -> bool
    ensures { result ≡ says_more job.now }
{
    match job {
        Job::Legs { .. } => false,
        Job::Check { options, .. } => !options.quiet,
        Job::Draw { dot: _ } => true,
        Job::Mend { patch: _ } => true,
        Job::Run(_) => true,
        Job::Spool(_) => false,
    }
}

/// The second line of a fault of the configuration, which is the input: its name, the text at fault, and where that stands.
/// None for another end.
pub fn second_line(
    alloc: Global,
    input: &[u8],
    ended: &Result<Ending, Stop>,
) -> Result<Option<String>, AllocError>
    ensures { IfOk result (λ line. IsSecondLine input.now (ended_fault ended.now) (option_map string_bytes line)) }
{
    match fault_of(ended) {
        Some(fault) => Ok(Some(detail_of(alloc, input, fault)?)),
        None => Ok(None),
    }
}

/// The fault of the configuration with which the program ended.
fn fault_of(ended: &Result<Ending, Stop>) -> Option<&ConfigFault>
    ensures { option_map (λ fault. fault.now) result ≡ ended_fault ended.now }
{
    match ended {
        Ok(_) => None,
        Err(Stop::BadLine) => None,
        Err(Stop::Mended(_)) => None,
        Err(Stop::NoChange) => None,
        Err(Stop::Damaged(_)) => None,
        Err(Stop::Run(fault)) => config_fault(fault),
    }
}

fn config_fault(fault: &RunFault) -> Option<&ConfigFault>
    ensures { option_map (λ fault. fault.now) result ≡ config_fault fault.now }
{
    match fault {
        RunFault::Line => None,
        RunFault::NoRoute => None,
        RunFault::Config(fault) => Some(fault),
        RunFault::CertificateText(_) => None,
        RunFault::Certificate(_) => None,
        RunFault::Window => None,
        RunFault::Memory => None,
        RunFault::Device => None,
    }
}

fn detail_of(alloc: Global, input: &[u8], fault: &ConfigFault) -> Result<String, AllocError>
    ensures { IfOk result (λ text. (line : List ℕ) × IsDetailOf input.now fault.now line × (string_bytes text ≡ utf8_lossy line)) }
{
    let line = fault_detail(alloc, input, fault)?;
    String::from_utf8_lossy(alloc, line.as_slice())
}
