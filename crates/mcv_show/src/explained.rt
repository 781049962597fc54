//! A verdict with an explanation behind it.

ghost use Rattle.std.specs.Prelude.{◌≡◌, ◌≢◌, ◌++◌, ℕ, List, length, IfErr, IfOk, IfSome, OnOk, option_map};
ghost use Rattle.std.specs.Io.KnownBytes.{Appends};
ghost use Rattle.serde_json.specs.View.{view};
ghost use Rattle.mcv_cert.specs.Text.{certificate_text};
ghost use Rattle.mcv_explain.specs.Explanation.{explanation};
ghost use Rattle.mcv_explain.specs.Scene.{scene_of};
ghost use Rattle.mcv_route.specs.Eras.{IsBreakTable, breaks_of};
ghost use Rattle.mcv_show.specs.Explained.{IsExplainedOf, IsExplainedOn, covered_explained, if_made, is_made};
ghost use Rattle.mcv_verdict.specs.Fault.{IsRefusedFor, IsRunFault};
ghost use Rattle.mcv_witness.specs.Finding.{finding_of};
ghost use Rattle.mcv_witness.specs.Text.{finding_text};

use crate::input::{Configuration, configuration_of, read_text};
use crate::output::Output;
use mcv_cert::Certificate;
use mcv_check::Accepted;
use mcv_explain::{Scene, push_compared, push_explanation};
use mcv_input::{RunFault, write_text};
use mcv_route::Routes;
use mcv_verdict::{Judged, Verdict, covered_line, judge};
use mcv_witness::finding_text;
use serde_json::Value;
use std::alloc::{AllocError, Global};
use std::io::{Read, Write};

/// Reads a configuration and writes the verdict on it within a window, with an explanation behind it; by the certificate
/// whose text is given, or else by one made here.
pub(crate) fn run_explained<R: Read, W: Write>(
    alloc: Global,
    reader: &mut R,
    writer: &mut W,
    certificate: Option<&[u8]>,
    window: u64,
) -> Result<Verdict, RunFault>
    ensures ok { IfOk result (λ verdict. (text : List ℕ)
        × IfSome (R.remaining reader.old) (λ input. IsExplainedOn input window (option_map (λ given. given.now) certificate.entry) verdict text)
        × Appends (W.contents writer.old) (W.contents writer.new) text) }
    ensures fault { IfErr result (λ fault.
        IfSome (R.remaining reader.old) (λ input. IsRunFault input window (option_map (λ given. given.now) certificate.entry) fault)) }
    ensures silent { IfErr result (λ fault. fault ≢ RunFault.Device → W.contents writer.new ≡ W.contents writer.old) }
{
    let input = read_text(alloc, reader)?;
    let output = explained(alloc, input.as_slice(), certificate, window)?;
    write_text(writer, output.text.as_slice())?;
    Ok(output.verdict)
}

/// The verdict on a configuration's text, explained.
fn explained(
    alloc: Global,
    input: &[u8],
    certificate: Option<&[u8]>,
    window: u64,
) -> Result<Output, RunFault>
    ensures output { IfOk result (λ o. IsExplainedOn input.now window (option_map (λ given. given.now) certificate.entry) o.verdict o.text.items) }
    ensures fault { IfErr result (IsRunFault input.now window (option_map (λ given. given.now) certificate.entry)) }
{
    let configuration = configuration_of(alloc, input)?;
    let Configuration { document, routes } = configuration;
    explained_of(alloc, &document, routes.within(window), certificate)
}

/// The verdict on routes, explained.
fn explained_of(
    alloc: Global,
    document: &Value,
    routes: Routes,
    certificate: Option<&[u8]>,
) -> Result<Output, RunFault>
    ensures output { IfOk result (λ o. IsExplainedOf (view document.now) routes (option_map (λ given. given.now) certificate.entry) o.verdict o.text.items) }
    ensures fault { IfErr result (IsRefusedFor routes (option_map (λ given. given.now) certificate.entry)) }
{
    let is_made = is_made(certificate);
    match judge(alloc, routes, certificate)? {
        Judged::Covered {
            accepted,
            certificate: found,
        } => Ok(covered_output(alloc, &accepted, &found, is_made)?),
        Judged::Lost { routes, finding } => {
            let scene = Scene {
                document,
                routes: &routes,
                finding: &finding,
            };
            Ok(lost_output(alloc, &scene)?)
        }
    }
}

/// Whether a certificate is made here: none is given.
fn is_made(certificate: Option<&[u8]>) -> bool
    ensures { result ≡ is_made (option_map (λ given. given.now) certificate.entry) }
{
    match certificate {
        Some(_) => false,
        None => true,
    }
}

// ---- what is lost

fn lost_output(alloc: Global, scene: &Scene<'_>) -> Result<Output, AllocError>
    ensures verdict { IfOk result (λ o. o.verdict ≡ Verdict.Lost) }
    ensures text { IfOk result (λ o. (table : List ℕ) × IsBreakTable (breaks_of scene.now.routes.now) table
        × (o.text.items ≡ finding_text scene.now.routes.now (finding_of scene.now.finding.now) ++ explanation (scene_of scene.now) table)) }
{
    Ok(Output {
        verdict: Verdict::Lost,
        text: lost_text(alloc, scene)?,
    })
}

/// A finding's text, and its explanation.
fn lost_text(alloc: Global, scene: &Scene<'_>) -> Result<Vec<u8>, AllocError>
    ensures { IfOk result (λ text. (table : List ℕ) × IsBreakTable (breaks_of scene.now.routes.now) table
        × (text.items ≡ finding_text scene.now.routes.now (finding_of scene.now.finding.now) ++ explanation (scene_of scene.now) table)) }
{
    let mut text = finding_text(alloc, scene.finding, scene.routes)?;
    push_explanation(alloc, &mut text, scene)?;
    Ok(text)
}

// ---- what is covered

/// The verdict that the checker accepted routes by a certificate, and its text.
fn covered_output(
    alloc: Global,
    accepted: &Accepted,
    certificate: &Certificate,
    is_made: bool,
) -> Result<Output, AllocError>
    ensures verdict { IfOk result (λ o. o.verdict ≡ Verdict.Covered (length certificate.now.pairs)) }
    ensures text { IfOk result (λ o. (table : List ℕ) × IsBreakTable (breaks_of accepted.now) table
        × (o.text.items ≡ covered_explained is_made certificate.now table)) }
{
    let pairs = certificate.len();
    let text = covered_text(alloc, accepted.routes(), certificate, is_made)?;
    Ok(Output {
        verdict: Verdict::Covered(pairs as u64),
        text,
    })
}

/// The line on what is covered, the certificate where it was made here, and what it compared.
fn covered_text(
    alloc: Global,
    routes: &Routes,
    certificate: &Certificate,
    is_made: bool,
) -> Result<Vec<u8>, AllocError>
    ensures { IfOk result (λ text. (table : List ℕ) × IsBreakTable (breaks_of routes.now) table
        × (text.items ≡ covered_explained is_made certificate.now table)) }
{
    let pairs = certificate.len();
    let mut text = covered_line(alloc, pairs)?;
    push_if_made(alloc, &mut text, certificate, is_made)?;
    push_compared(alloc, &mut text, routes, certificate)?;
    Ok(text)
}

/// Adds the certificate, where it was made here.
fn push_if_made(
    alloc: Global,
    text: &mut Vec<u8>,
    certificate: &Certificate,
    is_made: bool,
) -> Result<(), AllocError>
    ensures { OnOk result (text.new.items ≡ text.old.items ++ if_made is_made (certificate_text certificate.now.window certificate.now.pairs)) }
{
    if is_made {
        return push_certificate(alloc, text, certificate);
    }
    Ok(())
}

fn push_certificate(
    alloc: Global,
    text: &mut Vec<u8>,
    certificate: &Certificate,
) -> Result<(), AllocError>
    ensures { OnOk result (text.new.items ≡ text.old.items ++ certificate_text certificate.now.window certificate.now.pairs) }
{
    let written = certificate.text(alloc)?;
    text.extend_from_slice(written.as_slice())
}
