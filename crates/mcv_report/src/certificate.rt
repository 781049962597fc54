//! The report on a certificate.

ghost use Rattle.std.specs.Prelude.{◌≡◌, [], IfOk, map, unwrap_or};
ghost use Rattle.serde_json.specs.View.{view};
ghost use Rattle.mcv_base.specs.Position.{position_text};
ghost use Rattle.mcv_cert.specs.Pair.{pair_of};
ghost use Rattle.mcv_cert.specs.Place.{place_of};
ghost use Rattle.mcv_cert.specs.Reason.{reason_of};
ghost use Rattle.mcv_places.specs.Pools.{handle_at};
ghost use Rattle.mcv_report.specs.CertificateReport.{covered_report, pair_report, reason_index, reason_legs, reason_name};
ghost use Rattle.mcv_report.specs.Json.{IsJsonOf, list_from, text_from};

use crate::object::Object;
use crate::text::{position_text, report_text};
use mcv_base::Position;
use mcv_cert::{Certificate, Pair, Place, Reason};
use mcv_places::handle_at;
use serde_json::Value;
use std::alloc::{AllocError, Global};
use std::slice;

/// The text of the report on a certificate by which a configuration is covered.
pub fn covered_text(
    alloc: Global,
    document: &Value,
    certificate: &Certificate,
) -> Result<Vec<u8>, AllocError>
    ensures { IfOk result (λ text. IsJsonOf text.items (covered_report (view document.now) certificate.now)) }
{
    let report = covered_report(alloc, document, certificate)?;
    report_text(alloc, &report)
}

/// The report on a certificate.
#[tactic(auto, unfolding(crate::specs::CertificateReport::covered_report))]
fn covered_report(
    alloc: Global,
    document: &Value,
    certificate: &Certificate,
) -> Result<Value, AllocError>
    ensures { IfOk result (λ v. view v ≡ covered_report (view document.now) certificate.now) }
{
    let pairs = pair_reports(alloc, document, certificate.pairs())?;
    let report = Object::new(alloc)
        .with("certificate", pairs)?
        .number("schema_version", 1)?
        .text("verdict", b"covered")?
        .number("window", certificate.window() as usize)?;
    Ok(report.value())
}

fn pair_reports(alloc: Global, document: &Value, pairs: &[Pair]) -> Result<Value, AllocError>
    ensures { IfOk result (λ v. view v ≡ list_from (map (pair_report (view document.now)) (map pair_of pairs.now))) }
{
    let mut reports = Vec::with_capacity(alloc, pairs.len())?;
    for pair in pairs {
        reports.push(pair_report(alloc, document, pair)?)?;
    }
    Ok(Value::Array(reports))
}

#[tactic(auto, unfolding(crate::specs::CertificateReport::pair_report))]
fn pair_report(alloc: Global, document: &Value, pair: &Pair) -> Result<Value, AllocError>
    ensures { IfOk result (λ v. view v ≡ pair_report (view document.now) (pair_of pair.now)) }
{
    let place = &pair.place;
    let pointer = leaf_pointer(alloc, document, place)?;
    let report = Object::new(alloc)
        .word("class", place.class.as_slice())?
        .number("era", place.era)?
        .number("get_era", place.get_era)?
        .number_or_null("index", reason_index(&pair.reason))?
        .position("leaf", &place.leaf)?
        .text("leaf_pointer", pointer.as_slice())?
        .with("legs", leg_texts(alloc, reason_legs(&pair.reason))?)?
        .text("reason", reason_name(&pair.reason))?
        .number("route", place.route)?;
    Ok(report.value())
}

/// The pointer of a place's leaf; empty where there is none.
fn leaf_pointer(alloc: Global, document: &Value, place: &Place) -> Result<Vec<u8>, AllocError>
    ensures { IfOk result (λ pointer. pointer.items ≡ unwrap_or (handle_at (view document.now) place.now.route (place_of place.now).leaf) []) }
{
    match handle_at(alloc, document, place.route, &place.leaf)? {
        Some(pointer) => Ok(pointer),
        None => Ok(Vec::new(alloc)),
    }
}

fn leg_texts(alloc: Global, legs: &[Position]) -> Result<Value, AllocError>
    ensures { IfOk result (λ v. view v ≡ list_from (map (λ leg. text_from (position_text leg)) legs.now)) }
{
    let mut texts = Vec::with_capacity(alloc, legs.len())?;
    for leg in legs {
        texts.push(position_text(alloc, leg)?)?;
    }
    Ok(Value::Array(texts))
}

fn reason_name(reason: &Reason) -> &'static [u8]
    ensures { result.now ≡ reason_name (reason_of reason.now) }
{
    match reason {
        Reason::Never => b"never",
        Reason::Twin(_) => b"twin",
        Reason::Same(_, _) => b"same",
        Reason::All(_, _) => b"all",
    }
}

fn reason_index(reason: &Reason) -> Option<usize>
    ensures { result ≡ reason_index (reason_of reason.now) }
{
    match reason {
        Reason::Never | Reason::Twin(_) => None,
        Reason::Same(index, _) | Reason::All(index, _) => Some(*index),
    }
}

fn reason_legs(reason: &Reason) -> &[Position]
    ensures { result.now ≡ reason_legs (reason_of reason.now) }
{
    match reason {
        Reason::Never => &[],
        Reason::Twin(leg) => slice::from_ref(leg),
        Reason::Same(_, leg) => slice::from_ref(leg),
        Reason::All(_, legs) => legs.as_slice(),
    }
}
