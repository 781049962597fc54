//! The report on a finding.

ghost use Rattle.std.specs.Prelude.{◌≡◌, ℕ, List, IfOk, map, slice_get};
ghost use Rattle.serde_json.specs.View.{view};
ghost use Rattle.mcv_explain.specs.Scene.{scene_of};
ghost use Rattle.mcv_report.specs.FindingReport.{era_report, finding_report, index_list, index_report, leg_report, leg_reports, lost_report, opened_at, request_report, route_report, server_report};
ghost use Rattle.mcv_report.specs.Json.{IsJsonOf, list_from};
ghost use Rattle.mcv_route.specs.Eras.{IsBreakTable, breaks_of};
ghost use Rattle.mcv_witness.specs.Finding.{outcomes_of};
ghost use Rattle.mcv_witness.specs.Text.{func_name};

use crate::object::Object;
use crate::text::report_text;
use mcv_base::{Moment, Op, Position};
use mcv_explain::{Scene, outcome_word};
use mcv_pools::{Choice, HashFunc, Symbol};
use mcv_witness::LegOutcome;
use serde_json::Value;
use std::alloc::{AllocError, Global};

/// The text of the report on a finding: that the configuration can lose a delete, and how.
pub fn lost_text(alloc: Global, scene: &Scene<'_>) -> Result<Vec<u8>, AllocError>
    ensures { IfOk result (λ text. (table : List ℕ) × IsBreakTable (breaks_of scene.now.routes.now) table
        × IsJsonOf text.items (lost_report (scene_of scene.now) table)) }
{
    let table = scene.routes.breaks();
    let report = lost_report(alloc, scene, table)?;
    report_text(alloc, &report)
}

/// The report on a finding, with the table of breaks.
#[tactic(auto, unfolding(crate::specs::FindingReport::lost_report))]
fn lost_report(alloc: Global, scene: &Scene<'_>, table: &[Moment]) -> Result<Value, AllocError>
    ensures { IfOk result (λ v. view v ≡ lost_report (scene_of scene.now) (map (λ m. m.0) table.now)) }
{
    let finding = finding_report(alloc, scene, table)?;
    let report = Object::new(alloc)
        .with("finding", finding)?
        .number("schema_version", 1)?
        .text("verdict", b"lost")?
        .number("window", scene.finding.window as usize)?;
    Ok(report.value())
}

#[tactic(auto, unfolding(crate::specs::FindingReport::finding_report))]
fn finding_report(alloc: Global, scene: &Scene<'_>, table: &[Moment]) -> Result<Value, AllocError>
    ensures { IfOk result (λ v. view v ≡ finding_report (scene_of scene.now) (map (λ m. m.0) table.now)) }
{
    let finding = scene.finding;
    let symbols = scene.routes.symbols().as_slice();
    let report = Object::new(alloc)
        .word("class", finding.place.class.as_slice())?
        .with("delete", delete_report(alloc, scene, table)?)?
        .with("get", get_report(alloc, scene, table)?)?
        .with("indexes", index_reports(alloc, &finding.choice, symbols)?)?
        .word("key", finding.key.as_slice())?
        .position("leaf", &finding.place.leaf)?
        .text("operation", finding.op.name().as_bytes())?
        .with("route", route_report(alloc, scene)?)?
        .with("server", server_report(alloc, scene)?)?;
    Ok(report.value())
}

/// The finding's route.
#[tactic(auto, unfolding(crate::specs::FindingReport::route_report))]
fn route_report(alloc: Global, scene: &Scene<'_>) -> Result<Value, AllocError>
    ensures { IfOk result (λ v. view v ≡ route_report (scene_of scene.now)) }
{
    let pointer = scene.handle_pointer(alloc, &Position::root(alloc))?;
    let report = Object::new(alloc)
        .number("number", scene.finding.place.route)?
        .text("pointer", pointer.as_slice())?;
    Ok(report.value())
}

/// The server that is lost.
#[tactic(auto, unfolding(crate::specs::FindingReport::server_report))]
fn server_report(alloc: Global, scene: &Scene<'_>) -> Result<Value, AllocError>
    ensures { IfOk result (λ v. view v ≡ server_report (scene_of scene.now)) }
{
    let pointer = scene.server_pointer(alloc, &scene.finding.place.leaf)?;
    let report = Object::new(alloc)
        .text("name", scene.lost_server())?
        .text("pointer", pointer.as_slice())?;
    Ok(report.value())
}

// ---- the requests

/// The finding's delete: its era, and the legs that answer it.
#[tactic(auto, unfolding(crate::specs::FindingReport::request_report))]
fn delete_report(alloc: Global, scene: &Scene<'_>, table: &[Moment]) -> Result<Value, AllocError>
    ensures { IfOk result (λ v. view v ≡ request_report (scene_of scene.now) (map (λ m. m.0) table.now) Op.Delete
        (scene_of scene.now).finding.place.spot.era (scene_of scene.now).finding.deletes) }
{
    let finding = scene.finding;
    let report = Object::new(alloc)
        .with("era", era_report(alloc, table, finding.place.era)?)?
        .with(
            "legs",
            leg_reports(alloc, scene, Op::Delete, finding.deletes.as_slice())?,
        )?;
    Ok(report.value())
}

/// What the finding asks for later: its era, and the legs that answer it.
#[tactic(auto, unfolding(crate::specs::FindingReport::request_report))]
fn get_report(alloc: Global, scene: &Scene<'_>, table: &[Moment]) -> Result<Value, AllocError>
    ensures { IfOk result (λ v. view v ≡ request_report (scene_of scene.now) (map (λ m. m.0) table.now) (scene_of scene.now).finding.op
        (scene_of scene.now).finding.place.spot.get_era (scene_of scene.now).finding.gets) }
{
    let finding = scene.finding;
    let report = Object::new(alloc)
        .with("era", era_report(alloc, table, finding.place.get_era)?)?
        .with(
            "legs",
            leg_reports(alloc, scene, finding.op, finding.gets.as_slice())?,
        )?;
    Ok(report.value())
}

/// An era: its number, and the moments at which it begins and is over.
#[tactic(auto, unfolding(crate::specs::FindingReport::era_report))]
fn era_report(alloc: Global, table: &[Moment], era: usize) -> Result<Value, AllocError>
    ensures { IfOk result (λ v. view v ≡ era_report (map (λ m. m.0) table.now) era) }
{
    let report = Object::new(alloc)
        .number_or_null("from", opened_at(table, era))?
        .number("number", era)?
        .number_or_null("until", moment_at(table, era))?;
    Ok(report.value())
}

/// The moment of a table at an index.
fn moment_at(table: &[Moment], index: usize) -> Option<usize>
    ensures { result ≡ slice_get (map (λ m. m.0) table.now) index }
{
    let moment = table.get(index)?;
    Some(moment.0 as usize)
}

/// The moment at which an era begins.
fn opened_at(table: &[Moment], era: usize) -> Option<usize>
    ensures { result ≡ opened_at (map (λ m. m.0) table.now) era }
{
    if era == 0 {
        return None;
    }
    moment_at(table, era - 1)
}

#[tactic(auto, unfolding(crate::specs::FindingReport::leg_report))]
fn leg_report(
    alloc: Global,
    scene: &Scene<'_>,
    op: Op,
    leg: &LegOutcome,
) -> Result<Value, AllocError>
    ensures { IfOk result (λ v. view v ≡ leg_report (scene_of scene.now) op (leg.now.position, leg.now.outcome)) }
{
    let handle = scene.handle_pointer(alloc, &leg.position)?;
    let server_pointer = scene.server_pointer(alloc, &leg.position)?;
    let report = Object::new(alloc)
        .text("handle", handle.as_slice())?
        .text("outcome", outcome_word(op, leg.outcome))?
        .position("position", &leg.position)?
        .text("server", scene.leg_server(&leg.position))?
        .text("server_pointer", server_pointer.as_slice())?;
    Ok(report.value())
}

fn leg_reports(
    alloc: Global,
    scene: &Scene<'_>,
    op: Op,
    legs: &[LegOutcome],
) -> Result<Value, AllocError>
    ensures { IfOk result (λ v. view v ≡ leg_reports (scene_of scene.now) op (outcomes_of legs.now)) }
{
    let mut reports = Vec::with_capacity(alloc, legs.len())?;
    for leg in legs {
        reports.push(leg_report(alloc, scene, op, leg)?)?;
    }
    Ok(Value::Array(reports))
}

fn func_name(func: HashFunc) -> &'static [u8]
    ensures { result.now ≡ func_name func }
{
    match func {
        HashFunc::Ch3 => b"Ch3",
        HashFunc::Crc32 => b"Crc32",
    }
}

#[tactic(auto, unfolding(crate::specs::FindingReport::index_report))]
fn index_report(alloc: Global, symbol: &Symbol, index: usize) -> Result<Value, AllocError>
    ensures { IfOk result (λ v. view v ≡ index_report symbol.now index) }
{
    let report = Object::new(alloc)
        .text("func", func_name(symbol.func()))?
        .number("index", index)?
        .word("salt", symbol.salt())?
        .number("servers", symbol.n())?;
    Ok(report.value())
}

/// The indexes of the symbols that are over more than one server.
fn index_reports(alloc: Global, choice: &Choice, symbols: &[Symbol]) -> Result<Value, AllocError>
    ensures { IfOk result (λ v. view v ≡ list_from (index_list choice.now 0 symbols.now)) }
{
    let mut reports = Vec::new(alloc);
    for (number, symbol) in symbols.iter().enumerate() {
        if symbol.n() > 1 {
            reports.push(index_report(alloc, symbol, choice.index(number))?)?;
        }
    }
    Ok(Value::Array(reports))
}
