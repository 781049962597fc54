//! The verdict on routes, and their picture.

ghost use Rattle.std.specs.Prelude.{◌≡◌, ◌++◌, IfErr, IfOk, OnOk, length};
ghost use Rattle.mcv_draw.specs.Drawn.{drawn, top};
ghost use Rattle.mcv_draw.specs.Element.{rows_of};
ghost use Rattle.mcv_draw.specs.Marks.{MarksValue};
ghost use Rattle.mcv_draw.specs.Walk.{elements_of};
ghost use Rattle.mcv_picture.specs.Drawing.{AreDrawnOf, IsDrawnOf, IsDrawnWith, ShowsFinding, certificate_marks, drawing};
ghost use Rattle.mcv_picture.specs.Found.{AreMarksOf};
ghost use Rattle.mcv_route.specs.View.{view};
ghost use Rattle.mcv_verdict.specs.Text.{covered_line};
ghost use Rattle.mcv_witness.specs.Finding.{finding_of};
ghost use Rattle.mcv_witness.specs.Text.{finding_text};

use crate::marks::{Found, marks_of};
use crate::notes::lines_of;
use mcv_cert::Certificate;
use mcv_check::Accepted;
use mcv_draw::{Drawing, Picture, dot, draw, svg};
use mcv_input::RunFault;
use mcv_route::{Route, Routes};
use mcv_verdict::{Judged, Verdict, covered_line, judge};
use mcv_witness::{Finding, finding_text};
use std::alloc::{AllocError, Global};

/// A verdict, and the text of the picture.
#[derive(Drop)]
pub(crate) struct Drawn {
    pub(crate) verdict: Verdict,
    pub(crate) text: Vec<u8>,
}

/// The verdict on routes, and their picture.
pub(crate) fn drawn_routes(alloc: Global, routes: Routes, is_dot: bool) -> Result<Drawn, RunFault>
    ensures drawn { IfOk result (λ drawn. IsDrawnOf is_dot routes drawn.verdict drawn.text.items) }
    ensures fault { IfErr result (λ fault. fault ≡ RunFault.Memory) }
{
    match judge(alloc, routes, None)? {
        Judged::Covered {
            accepted,
            certificate,
        } => Ok(covered_drawing(alloc, &accepted, &certificate, is_dot)?),
        Judged::Lost { routes, finding } => Ok(lost_drawing(alloc, &routes, &finding, is_dot)?),
    }
}

/// The picture of routes that the checker accepted by a certificate.
fn covered_drawing(
    alloc: Global,
    accepted: &Accepted,
    certificate: &Certificate,
    is_dot: bool,
) -> Result<Drawn, AllocError>
    ensures verdict { IfOk result (λ drawn. drawn.verdict ≡ Verdict.Covered (length certificate.now.pairs)) }
    ensures text { IfOk result (λ drawn. IsDrawnWith (λ number m. m ≡ certificate_marks certificate.now number) is_dot accepted.now (covered_line (length certificate.now.pairs)) drawn.text.items) }
{
    let pairs = certificate.len();
    let said = covered_line(alloc, pairs)?;
    let found = Found::Covered(certificate);
    let text = picture_text(alloc, accepted.routes(), &found, said.as_slice(), is_dot)?;
    Ok(Drawn {
        verdict: Verdict::Covered(pairs as u64),
        text,
    })
}

/// The picture of routes that can lose a delete, as a finding shows.
fn lost_drawing(
    alloc: Global,
    routes: &Routes,
    finding: &Finding,
    is_dot: bool,
) -> Result<Drawn, AllocError>
    ensures verdict { IfOk result (λ drawn. drawn.verdict ≡ Verdict.Lost) }
    ensures text { IfOk result (λ drawn. IsDrawnWith (ShowsFinding routes.now (finding_of finding.now)) is_dot routes.now (finding_text routes.now (finding_of finding.now)) drawn.text.items) }
{
    let said = finding_text(alloc, finding, routes)?;
    let found = Found::Lost(finding);
    let text = picture_text(alloc, routes, &found, said.as_slice(), is_dot)?;
    Ok(Drawn {
        verdict: Verdict::Lost,
        text,
    })
}

/// The text of the picture of routes, with what was found marked in them and what is said below.
fn picture_text(
    alloc: Global,
    routes: &Routes,
    found: &Found<'_>,
    said: &[u8],
    is_dot: bool,
) -> Result<Vec<u8>, AllocError>
    ensures { IfOk result (λ text. IsDrawnWith (AreMarksOf found.now routes.now) is_dot routes.now said.now text.items) }
{
    let picture = picture_of(alloc, routes, found)?;
    if is_dot {
        return dot(alloc, &picture);
    }
    let notes = lines_of(alloc, said)?;
    svg(alloc, &picture, notes.as_slice())
}

/// The routes' trees, one below the other, with what was found marked in each.
fn picture_of(alloc: Global, routes: &Routes, found: &Found<'_>) -> Result<Picture, AllocError>
    ensures { IfOk result (λ picture. AreDrawnOf (AreMarksOf found.now routes.now) routes.now (elements_of picture)) }
{
    // There are fewer routes than a number can count.
    let _servers = routes.servers();
    let mut picture = Picture::new(alloc);
    let mut number = 0;
    while let Some(route) = routes.route(number) {
        draw_route(alloc, &mut picture, routes, found, number, route)?;
        number += 1;
    }
    Ok(picture)
}

/// Adds the tree of the route of a number, with what was found marked in it.
fn draw_route(
    alloc: Global,
    picture: &mut Picture,
    routes: &Routes,
    found: &Found<'_>,
    number: usize,
    route: &Route,
) -> Result<(), AllocError>
    ensures { OnOk result ((m : MarksValue) × AreMarksOf found.now routes.now number m
        × (elements_of picture.new ≡ elements_of picture.old ++ drawn (drawing routes.now number m) top (rows_of (elements_of picture.old)) (view route.now))) }
{
    let marks = marks_of(alloc, routes, found, number)?;
    let servers = routes.servers();
    let drawing = Drawing {
        number,
        servers,
        marks: &marks,
    };
    draw(alloc, picture, route, &drawing)
}
