//! The report on a fault.

ghost use Rattle.std.specs.Prelude.{◌≡◌, IfOk, option_map};
ghost use Rattle.serde_json.specs.View.{view};
ghost use Rattle.mcv_faults.specs.FaultPointer.{fault_pointer};
ghost use Rattle.mcv_names.specs.Fault.{fault_path};
ghost use Rattle.mcv_report.specs.Json.{IsJsonOf};
ghost use Rattle.mcv_report.specs.FaultReport.{certificate_fault_report, column_of, config_fault_report, line_of, pair_fault_name, pair_fault_report, placed_fault_report, refused_report, text_fault_name, text_fault_report, window_fault_report};

use crate::object::Object;
use crate::text::report_text;
use mcv_cert::CertTextFault;
use mcv_faults::{TextPlace, fault_name, fault_pointer};
use mcv_judge::PairFault;
use mcv_names::ConfigFault;
use serde_json::Value;
use std::alloc::{AllocError, Global};

/// The text of the report on a fault of a configuration, with its line and its column where they are known.
pub fn refused_text(
    alloc: Global,
    fault: &ConfigFault,
    place: Option<TextPlace>,
) -> Result<Vec<u8>, AllocError>
    ensures { IfOk result (λ text. IsJsonOf text.items (refused_report (config_fault_report fault.now (option_map (λ p. (p.line, p.column)) place)))) }
{
    let report = refused_report(alloc, config_fault_report(alloc, fault, place)?)?;
    report_text(alloc, &report)
}

/// The text of the report on a fault of a certificate's text.
pub fn text_refused_text(alloc: Global, fault: CertTextFault) -> Result<Vec<u8>, AllocError>
    ensures { IfOk result (λ text. IsJsonOf text.items (refused_report (text_fault_report fault))) }
{
    let line = Some(fault.line());
    let name = text_fault_name(fault);
    certificate_refused_text(alloc, "certificate text", line, name, fault.number())
}

/// The text of the report on the first fault of a certificate.
pub fn pair_refused_text(alloc: Global, fault: PairFault) -> Result<Vec<u8>, AllocError>
    ensures { IfOk result (λ text. IsJsonOf text.items (refused_report (pair_fault_report fault))) }
{
    let name = pair_fault_name(fault);
    certificate_refused_text(alloc, "certificate", None, name, fault.number())
}

/// The text of the report on a certificate for another window.
pub fn window_refused_text(alloc: Global) -> Result<Vec<u8>, AllocError>
    ensures { IfOk result (λ text. IsJsonOf text.items (refused_report window_fault_report)) }
{
    certificate_refused_text(alloc, "certificate", None, "another window", 7)
}

fn text_fault_name(fault: CertTextFault) -> &'static str
    ensures { result.now ≡ text_fault_name fault }
{
    match fault {
        CertTextFault::Syntax(_) => "no line of a certificate",
        CertTextFault::Order(_) => "line out of order",
        CertTextFault::Limit => "over a limit",
    }
}

fn pair_fault_name(fault: PairFault) -> &'static str
    ensures { result.now ≡ pair_fault_name fault }
{
    match fault {
        PairFault::Missing => "readable server without a line",
        PairFault::Stray => "line for what can't be read",
        PairFault::NotAcknowledged => "leg that not every delete has sent",
        PairFault::OtherServer => "other hash, number of legs or server",
        PairFault::CanBeAcknowledged => "never, where a delete can be acknowledged",
    }
}

/// The text of the report on a fault of a certificate.
fn certificate_refused_text(
    alloc: Global,
    kind: &str,
    line: Option<usize>,
    name: &str,
    number: u8,
) -> Result<Vec<u8>, AllocError>
    ensures { IfOk result (λ text. IsJsonOf text.items (refused_report (certificate_fault_report kind.now line name.now number))) }
{
    let fault = certificate_fault_report(alloc, kind, line, name, number)?;
    let report = refused_report(alloc, fault)?;
    report_text(alloc, &report)
}

#[tactic(auto, unfolding(crate::specs::FaultReport::certificate_fault_report))]
fn certificate_fault_report(
    alloc: Global,
    kind: &str,
    line: Option<usize>,
    name: &str,
    number: u8,
) -> Result<Value, AllocError>
    ensures { IfOk result (λ v. view v ≡ certificate_fault_report kind.now line name.now number) }
{
    let report = Object::new(alloc)
        .with("column", Value::Null)?
        .text("kind", kind.as_bytes())?
        .number_or_null("line", line)?
        .text("name", name.as_bytes())?
        .number("number", number as usize)?
        .with("pointer", Value::Null)?;
    Ok(report.value())
}

/// The report with this fault.
#[tactic(auto, unfolding(crate::specs::FaultReport::refused_report))]
fn refused_report(alloc: Global, fault: Value) -> Result<Value, AllocError>
    ensures { IfOk result (λ v. view v ≡ refused_report (view fault)) }
{
    let report = Object::new(alloc)
        .with("fault", fault)?
        .number("schema_version", 1)?
        .text("verdict", b"refused")?;
    Ok(report.value())
}

fn line_of(place: Option<TextPlace>) -> Option<usize>
    ensures { result ≡ line_of (option_map (λ p. (p.line, p.column)) place) }
{
    match place {
        Some(place) => Some(place.line),
        None => None,
    }
}

fn column_of(place: Option<TextPlace>) -> Option<usize>
    ensures { result ≡ column_of (option_map (λ p. (p.line, p.column)) place) }
{
    match place {
        Some(place) => Some(place.column),
        None => None,
    }
}

/// The JSON pointer of a fault's path.
fn pointer_of(alloc: Global, fault: &ConfigFault) -> Result<Vec<u8>, AllocError>
    ensures { IfOk result (λ pointer. pointer.items ≡ fault_pointer (fault_path fault.now)) }
{
    fault_pointer(alloc, fault.path().as_bytes())
}

fn config_fault_report(
    alloc: Global,
    fault: &ConfigFault,
    place: Option<TextPlace>,
) -> Result<Value, AllocError>
    ensures { IfOk result (λ v. view v ≡ config_fault_report fault.now (option_map (λ p. (p.line, p.column)) place)) }
{
    let pointer = pointer_of(alloc, fault)?;
    let name = fault_name(fault.kind);
    let column = column_of(place);
    let line = line_of(place);
    placed_fault_report(
        alloc,
        column,
        line,
        name,
        fault.number(),
        pointer.as_slice(),
    )
}

#[tactic(auto, unfolding(crate::specs::FaultReport::placed_fault_report))]
fn placed_fault_report(
    alloc: Global,
    column: Option<usize>,
    line: Option<usize>,
    name: &str,
    number: u8,
    pointer: &[u8],
) -> Result<Value, AllocError>
    ensures { IfOk result (λ v. view v ≡ placed_fault_report column line name.now number pointer.now) }
{
    let report = Object::new(alloc)
        .number_or_null("column", column)?
        .text("kind", b"configuration")?
        .number_or_null("line", line)?
        .text("name", name.as_bytes())?
        .number("number", number as usize)?
        .text("pointer", pointer)?;
    Ok(report.value())
}
