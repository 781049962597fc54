//! A verdict as a report, or that on the fault in its place.

ghost use Rattle.std.specs.Prelude.{◌≡◌, ◌≢◌, ◌⊎◌, ℕ, List, length, IfErr, IfOk, IfSome, option_map, take};
ghost use Rattle.std.specs.Io.KnownBytes.{Appends};
ghost use Rattle.serde_json.specs.View.{view};
ghost use Rattle.mcv_explain.specs.Scene.{scene_of};
ghost use Rattle.mcv_input.specs.Fault.{IsOutside};
ghost use Rattle.mcv_report.specs.CertificateReport.{covered_report};
ghost use Rattle.mcv_report.specs.FindingReport.{lost_report};
ghost use Rattle.mcv_report.specs.Json.{IsJsonOf};
ghost use Rattle.mcv_route.specs.Eras.{IsBreakTable, breaks_of};
ghost use Rattle.mcv_show.specs.Reported.{IsFaultText, IsReportedOf, IsReportedOn};
ghost use Rattle.mcv_verdict.specs.Fault.{IsRefusedFor, IsRunFault};

use crate::fault::fault_text;
use crate::input::{Configuration, configuration_of, read_text};
use crate::output::Output;
use mcv_cert::Certificate;
use mcv_explain::Scene;
use mcv_input::{RunFault, write_text};
use mcv_report::{covered_text, lost_text};
use mcv_route::Routes;
use mcv_verdict::{Judged, Verdict, judge};
use serde_json::Value;
use std::alloc::{AllocError, Global};
use std::io::{Read, Write};

/// Reads a configuration and writes the report on it within a window: on the verdict, by the certificate whose text is given,
/// or else by one made here; or on a fault in the configuration or the certificate.
pub(crate) fn run_reported<R: Read, W: Write>(
    alloc: Global,
    reader: &mut R,
    writer: &mut W,
    certificate: Option<&[u8]>,
    window: u64,
) -> Result<Verdict, RunFault>
    ensures ok { IfOk result (λ verdict. (text : List ℕ)
        × IfSome (R.remaining reader.old) (λ input. IsReportedOn input window (option_map (λ given. given.now) certificate.entry) verdict text)
        × Appends (W.contents writer.old) (W.contents writer.new) text) }
    ensures fault { IfErr result (λ fault.
        IfSome (R.remaining reader.old) (λ input. IsRunFault input window (option_map (λ given. given.now) certificate.entry) fault)) }
    ensures reported { IfErr result (λ fault. fault ≢ RunFault.Memory → fault ≢ RunFault.Device → (text : List ℕ)
        × IfSome (R.remaining reader.old) (λ input. IsFaultText (take 16777217 input) fault text) × Appends (W.contents writer.old) (W.contents writer.new) text) }
{
    let input = read_text(alloc, reader)?;
    write_reported(alloc, writer, input.as_slice(), certificate, window)
}

/// Writes the report on a configuration's text.
fn write_reported<W: Write>(
    alloc: Global,
    writer: &mut W,
    input: &[u8],
    certificate: Option<&[u8]>,
    window: u64,
) -> Result<Verdict, RunFault>
    ensures ok { IfOk result (λ verdict. (text : List ℕ)
        × IsReportedOn input.now window (option_map (λ given. given.now) certificate.entry) verdict text
        × Appends (W.contents writer.old) (W.contents writer.new) text) }
    ensures fault { IfErr result (IsRunFault input.now window (option_map (λ given. given.now) certificate.entry)) }
    ensures reported { IfErr result (λ fault. fault ≢ RunFault.Memory → fault ≢ RunFault.Device → (text : List ℕ)
        × IsFaultText input.now fault text × Appends (W.contents writer.old) (W.contents writer.new) text) }
{
    match reported(alloc, input, certificate, window) {
        Ok(output) => write_output(writer, output),
        Err(fault) => Err(report_fault(alloc, writer, input, fault)),
    }
}

/// Writes the text of a verdict.
fn write_output<W: Write>(writer: &mut W, output: Output) -> Result<Verdict, RunFault>
    ensures ok { IfOk result (λ verdict. (verdict ≡ output.verdict) × Appends (W.contents writer.old) (W.contents writer.new) output.text.items) }
    ensures fault { IfErr result (λ fault. fault ≡ RunFault.Device) }
{
    write_text(writer, output.text.as_slice())?;
    Ok(output.verdict)
}

// ---- on a fault

/// Writes the report on a fault; the answer is the fault, or the one that came in writing it.
fn report_fault<W: Write>(alloc: Global, writer: &mut W, input: &[u8], fault: RunFault) -> RunFault
    ensures fault { (result ≡ fault) ⊎ IsOutside result }
    ensures reported { result ≢ RunFault.Memory → result ≢ RunFault.Device → (text : List ℕ)
        × IsFaultText input.now result text × Appends (W.contents writer.old) (W.contents writer.new) text }
{
    match fault_text(alloc, input, &fault) {
        Ok(text) => write_report(writer, text.as_slice(), fault),
        Err(_) => RunFault::Memory,
    }
}

/// Writes the text of the report on a fault; the answer is the fault, or the device's.
fn write_report<W: Write>(writer: &mut W, text: &[u8], fault: RunFault) -> RunFault
    ensures fault { (result ≡ fault) ⊎ (result ≡ RunFault.Device) }
    ensures written { result ≢ RunFault.Device → Appends (W.contents writer.old) (W.contents writer.new) text.now }
{
    match write_text(writer, text) {
        Ok(()) => fault,
        Err(failed) => failed,
    }
}

// ---- on a verdict

/// The verdict on a configuration's text, and the report on it.
fn reported(
    alloc: Global,
    input: &[u8],
    certificate: Option<&[u8]>,
    window: u64,
) -> Result<Output, RunFault>
    ensures output { IfOk result (λ o. IsReportedOn input.now window (option_map (λ given. given.now) certificate.entry) o.verdict o.text.items) }
    ensures fault { IfErr result (IsRunFault input.now window (option_map (λ given. given.now) certificate.entry)) }
{
    let configuration = configuration_of(alloc, input)?;
    let Configuration { document, routes } = configuration;
    reported_of(alloc, &document, routes.within(window), certificate)
}

/// The verdict on routes, and the report on it.
fn reported_of(
    alloc: Global,
    document: &Value,
    routes: Routes,
    certificate: Option<&[u8]>,
) -> Result<Output, RunFault>
    ensures output { IfOk result (λ o. IsReportedOf (view document.now) routes (option_map (λ given. given.now) certificate.entry) o.verdict o.text.items) }
    ensures fault { IfErr result (IsRefusedFor routes (option_map (λ given. given.now) certificate.entry)) }
{
    match judge(alloc, routes, certificate)? {
        Judged::Covered {
            accepted: _accepted,
            certificate: found,
        } => Ok(covered_output(alloc, document, &found)?),
        Judged::Lost { routes, finding } => {
            let scene = Scene {
                document,
                routes: &routes,
                finding: &finding,
            };
            Ok(lost_output(alloc, &scene)?)
        }
    }
}

fn lost_output(alloc: Global, scene: &Scene<'_>) -> Result<Output, AllocError>
    ensures verdict { IfOk result (λ o. o.verdict ≡ Verdict.Lost) }
    ensures text { IfOk result (λ o. (table : List ℕ) × IsBreakTable (breaks_of scene.now.routes.now) table
        × IsJsonOf o.text.items (lost_report (scene_of scene.now) table)) }
{
    Ok(Output {
        verdict: Verdict::Lost,
        text: lost_text(alloc, scene)?,
    })
}

fn covered_output(
    alloc: Global,
    document: &Value,
    certificate: &Certificate,
) -> Result<Output, AllocError>
    ensures verdict { IfOk result (λ o. o.verdict ≡ Verdict.Covered (length certificate.now.pairs)) }
    ensures text { IfOk result (λ o. IsJsonOf o.text.items (covered_report (view document.now) certificate.now)) }
{
    let pairs = certificate.len();
    let text = covered_text(alloc, document, certificate)?;
    Ok(Output {
        verdict: Verdict::Covered(pairs as u64),
        text,
    })
}
