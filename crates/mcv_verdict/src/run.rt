//! The path from the bytes read to the bytes written.

ghost use Rattle.std.specs.Prelude.{◌≡◌, ◌≢◌, ◌++◌, ℕ, List, length, option_map, None, IfSome, IfOk, IfErr};
ghost use Rattle.std.specs.Io.KnownBytes.{Appends};
ghost use Rattle.mcv_cert.specs.Pair.{IsCertificate};
ghost use Rattle.mcv_cert.specs.Text.{certificate_text};
ghost use Rattle.mcv_input.specs.Fault.{AreNamedBy};
ghost use Rattle.mcv_route.specs.Routes.{RoutesValue, within};
ghost use Rattle.mcv_symbolic.specs.CoveredRoutes.{AreCovered};
ghost use Rattle.mcv_verdict.specs.Fault.{IsRefusedBy, IsRefusedFor, IsRunFault, of_check};
ghost use Rattle.mcv_verdict.specs.Text.{covered_line};
ghost use Rattle.mcv_verdict.specs.Verdict.{IsJudged, IsJudgedBy, IsJudgedFor, IsJudgement, IsVerdict, IsVerdictBy, IsVerdictFor, IsVerdictOn};

use crate::text::covered_line;
use crate::verdict::{Judged, Judgement, Verdict};
use mcv_cert::{Certificate, read_certificate};
use mcv_check::{Accepted, CheckFault, check};
use mcv_input::{RunFault, read_configuration, write_text};
use mcv_make::{MakeFault, make};
use mcv_route::Routes;
use mcv_witness::finding_text;
use std::alloc::{AllocError, Global};
use std::io::{Read, Write};

/// A verdict, and the text that says it.
#[derive(Drop)]
struct Output {
    verdict: Verdict,
    text: Vec<u8>,
}

/// Reads a configuration and writes the verdict on it within a window: how far apart, in seconds, a delete and a get are
/// looked at. Where no certificate's text is given, one is made and checked,
/// and written behind the verdict; where a delete can be lost, what shows it is written. Else the certificate that the
/// text says is checked. The configuration is judged first, then the certificate's text, then the certificate. Where
/// one of them is at fault, nothing is written. The reader may be left with bytes behind a configuration that is too
/// long.
pub fn run_check<R: Read, W: Write>(
    alloc: Global,
    reader: &mut R,
    writer: &mut W,
    certificate: Option<&[u8]>,
    window: u64,
) -> Result<Verdict, RunFault>
    ensures ok { IfOk result (λ verdict. (text : List ℕ)
        × IfSome (R.remaining reader.old) (λ input. IsVerdictOn input window (option_map (λ given. given.now) certificate.entry) verdict text)
        × Appends (W.contents writer.old) (W.contents writer.new) text) }
    ensures fault { IfErr result (λ fault.
        IfSome (R.remaining reader.old) (λ input. IsRunFault input window (option_map (λ given. given.now) certificate.entry) fault)) }
    ensures silent { IfErr result (λ fault. fault ≢ RunFault.Device → W.contents writer.new ≡ W.contents writer.old) }
{
    let routes = read_configuration(alloc, reader)?;
    let output = verdict_for(alloc, routes.within(window), certificate)?;
    write_text(writer, output.text.as_slice())?;
    Ok(output.verdict)
}

/// The verdict on routes, by the certificate whose text is given, or else by one made here.
fn verdict_for(
    alloc: Global,
    routes: Routes,
    certificate: Option<&[u8]>,
) -> Result<Output, RunFault>
    ensures output { IfOk result (λ output. IsVerdictFor routes (option_map (λ given. given.now) certificate.entry) output.verdict output.text.items) }
    ensures fault { IfErr result (λ fault. IsRefusedFor routes (option_map (λ given. given.now) certificate.entry) fault) }
{
    match certificate {
        None => verdict_on(alloc, routes),
        Some(text) => verdict_by(alloc, routes, text),
    }
}

/// The verdict on routes, by a certificate made here.
fn verdict_on(alloc: Global, routes: Routes) -> Result<Output, RunFault>
    ensures output { IfOk result (λ output. IsVerdict routes output.verdict output.text.items) }
    ensures fault { IfErr result (λ fault. fault ≡ RunFault.Memory) }
{
    match judge_routes(alloc, routes)? {
        Judgement::Covered {
            accepted,
            certificate,
        } => Ok(covered_with(alloc, &accepted, &certificate)?),
        Judgement::Lost { finding } => Ok(Output {
            verdict: Verdict::Lost,
            text: finding,
        }),
    }
}

/// What the checker's fault is to a run.
fn refused(fault: CheckFault) -> RunFault
    ensures { result ≡ of_check fault }
{
    match fault {
        CheckFault::Pair(fault) => RunFault::Certificate(fault),
        CheckFault::Memory => RunFault::Memory,
        CheckFault::Window => RunFault::Window,
    }
}

/// That the checker accepted routes by a certificate.
fn covered_by(accepted: Accepted, certificate: Certificate) -> Judged
    ensures covered { AreCovered accepted }
    ensures certificate { IsCertificate certificate }
    ensures found { result ≡ Judged.Covered accepted certificate }
{
    // The routes are covered, and the pairs are those of a certificate.
    let _ = accepted.routes();
    let _ = certificate.pairs();
    Judged::Covered {
        accepted,
        certificate,
    }
}

/// What is found of routes by a certificate made here. Who made it isn't trusted: it is checked like any other.
fn judge_made(alloc: Global, routes: Routes) -> Result<Judged, RunFault>
    ensures judged { IfOk result (IsJudged routes) }
    ensures fault { IfErr result (λ fault. fault ≡ RunFault.Memory) }
{
    match make(alloc, &routes) {
        Ok(certificate) => {
            let accepted = match check(alloc, routes, &certificate) {
                Ok(accepted) => accepted,
                Err(fault) => return Err(refused(fault)),
            };
            Ok(covered_by(accepted, certificate))
        }
        Err(MakeFault::Lost(finding)) => Ok(Judged::Lost { routes, finding }),
        Err(MakeFault::Memory) => Err(RunFault::Memory),
    }
}

/// What is found of routes by the certificate that the text says.
fn judge_said(alloc: Global, routes: Routes, text: &[u8]) -> Result<Judged, RunFault>
    ensures judged { IfOk result (IsJudgedBy routes text.now) }
    ensures fault { IfErr result (λ fault. IsRefusedBy routes text.now fault) }
{
    let certificate = read_certificate(alloc, text)?;
    match check(alloc, routes, &certificate) {
        Ok(accepted) => Ok(covered_by(accepted, certificate)),
        Err(fault) => Err(refused(fault)),
    }
}

/// What is found of routes, with what shows it: by the certificate whose text is given, or else by one made here.
pub fn judge(alloc: Global, routes: Routes, certificate: Option<&[u8]>) -> Result<Judged, RunFault>
    ensures judged { IfOk result (IsJudgedFor routes (option_map (λ given. given.now) certificate.entry)) }
    ensures fault { IfErr result (λ fault. IsRefusedFor routes (option_map (λ given. given.now) certificate.entry) fault) }
{
    match certificate {
        None => judge_made(alloc, routes),
        Some(text) => judge_said(alloc, routes, text),
    }
}

/// What is found of routes, with the text of what is lost.
fn judge_routes(alloc: Global, routes: Routes) -> Result<Judgement, RunFault>
    ensures judged { IfOk result (IsJudgement routes) }
    ensures fault { IfErr result (λ fault. fault ≡ RunFault.Memory) }
{
    match judge_made(alloc, routes)? {
        Judged::Covered {
            accepted,
            certificate,
        } => Ok(Judgement::Covered {
            accepted,
            certificate,
        }),
        Judged::Lost { routes, finding } => Ok(Judgement::Lost {
            finding: finding_text(alloc, &finding, &routes)?,
        }),
    }
}

/// Reads a configuration and gives its routes, if they are covered within the window; else what shows that they aren't.
/// The reader may be left with bytes behind a configuration that is too long.
pub fn judge_input<R: Read>(
    alloc: Global,
    reader: &mut R,
    window: u64,
) -> Result<Judgement, RunFault>
    ensures judged { IfOk result (λ judgement. (r : RoutesValue)
        × IfSome (R.remaining reader.old) (λ input. AreNamedBy input r) × IsJudgement (within window r) judgement) }
    ensures fault { IfErr result (λ fault. IfSome (R.remaining reader.old) (λ input. IsRunFault input window None fault)) }
{
    let routes = read_configuration(alloc, reader)?;
    judge_routes(alloc, routes.within(window))
}

/// The verdict on routes, by the certificate that the text says.
fn verdict_by(alloc: Global, routes: Routes, text: &[u8]) -> Result<Output, RunFault>
    ensures output { IfOk result (λ output. IsVerdictBy routes text.now output.verdict output.text.items) }
    ensures fault { IfErr result (λ fault. IsRefusedBy routes text.now fault) }
{
    let certificate = read_certificate(alloc, text)?;
    match check(alloc, routes, &certificate) {
        Ok(accepted) => Ok(covered(alloc, &accepted, &certificate)?),
        Err(fault) => Err(refused(fault)),
    }
}

/// That a certificate covers routes. Only what the checker accepted is said to be covered.
fn covered(
    alloc: Global,
    accepted: &Accepted,
    certificate: &Certificate,
) -> Result<Output, AllocError>
    ensures covered { AreCovered accepted.now }
    ensures certificate { IsCertificate certificate.now }
    ensures verdict { IfOk result (λ output. output.verdict ≡ Verdict.Covered (length certificate.now.pairs)) }
    ensures text { IfOk result (λ output. output.text.items ≡ covered_line (length certificate.now.pairs)) }
{
    // The routes are covered, and the pairs are those of a certificate.
    let _ = accepted.routes();
    let _ = certificate.pairs();
    let pairs = certificate.len();
    Ok(Output {
        verdict: Verdict::Covered(pairs as u64),
        text: covered_line(alloc, pairs)?,
    })
}

/// That a certificate covers routes, and behind it the certificate.
fn covered_with(
    alloc: Global,
    accepted: &Accepted,
    certificate: &Certificate,
) -> Result<Output, AllocError>
    ensures covered { AreCovered accepted.now }
    ensures certificate { IsCertificate certificate.now }
    ensures verdict { IfOk result (λ output. output.verdict ≡ Verdict.Covered (length certificate.now.pairs)) }
    ensures text { IfOk result (λ output. output.text.items ≡ covered_line (length certificate.now.pairs) ++ certificate_text certificate.now.window certificate.now.pairs) }
{
    let mut output = covered(alloc, accepted, certificate)?;
    let text = certificate.text(alloc)?;
    output.text.extend_from_slice(text.as_slice())?;
    Ok(output)
}
