//! The eras of a finding.

ghost use Rattle.std.specs.Prelude.{◌≡◌, ◌++◌, IfOk, OnOk, map, slice_get};
ghost use Rattle.mcv_explain.specs.Explanation.{end_words, era_sentence, era_words, eras_sentence, one_era_words, opening_words, two_eras_words};
ghost use Rattle.mcv_explain.specs.Scene.{scene_of};

use crate::pieces::{number_text, push_pieces};
use crate::scene::Scene;
use mcv_base::Moment;
use std::alloc::{AllocError, Global};

/// From when on an era is.
fn opening_words(alloc: Global, table: &[Moment], era: usize) -> Result<Vec<u8>, AllocError>
    ensures { IfOk result (λ text. text.items ≡ opening_words (map (λ m. m.0) table.now) era) }
{
    let mut text = Vec::new(alloc);
    if era == 0 {
        return Ok(text);
    }
    let opened = match table.get(era - 1) {
        Some(moment) => moment.0,
        None => 0,
    };
    let moment = number_text(alloc, opened as usize)?;
    push_pieces(
        &mut text,
        &[b", from the moment ", moment.as_slice(), b" on"],
    )?;
    Ok(text)
}

/// Until when an era is.
fn end_words(alloc: Global, table: &[Moment], era: usize) -> Result<Vec<u8>, AllocError>
    ensures { IfOk result (λ text. text.items ≡ end_words (slice_get (map (λ m. m.0) table.now) era)) }
{
    let mut text = Vec::new(alloc);
    let Some(moment) = table.get(era) else {
        return Ok(text);
    };
    let moment = number_text(alloc, moment.0 as usize)?;
    push_pieces(&mut text, &[b", before the moment ", moment.as_slice()])?;
    Ok(text)
}

/// An era: its number, and the moments between which it is.
#[tactic(auto, unfolding(crate::specs::Explanation::era_words))]
fn era_words(alloc: Global, table: &[Moment], era: usize) -> Result<Vec<u8>, AllocError>
    ensures { IfOk result (λ text. text.items ≡ era_words (map (λ m. m.0) table.now) era) }
{
    let number = number_text(alloc, era)?;
    let opening = opening_words(alloc, table, era)?;
    let end = end_words(alloc, table, era)?;
    let mut text = Vec::new(alloc);
    push_pieces(
        &mut text,
        &[
            b"era ",
            number.as_slice(),
            opening.as_slice(),
            end.as_slice(),
        ],
    )?;
    Ok(text)
}

#[tactic(auto, unfolding(crate::specs::Explanation::one_era_words))]
fn push_one_era(text: &mut Vec<u8>, op: &[u8], era: &[u8]) -> Result<(), AllocError>
    ensures { OnOk result (text.new.items ≡ text.old.items ++ one_era_words op.now era.now) }
{
    push_pieces(
        text,
        &[
            b"The delete and the ",
            op,
            b" are both in ",
            era,
            b": what a migration sends depends on the moment.\n",
        ],
    )
}

#[tactic(auto, unfolding(crate::specs::Explanation::two_eras_words))]
fn push_two_eras(
    text: &mut Vec<u8>,
    delete_era: &[u8],
    op: &[u8],
    era: &[u8],
    window: &[u8],
) -> Result<(), AllocError>
    ensures { OnOk result (text.new.items ≡ text.old.items ++ two_eras_words delete_era.now op.now era.now window.now) }
{
    push_pieces(
        text,
        &[
            b"The delete is in ",
            delete_era,
            b", and the ",
            op,
            b" in ",
            era,
            b": what a migration sends depends on the moment, and the two can be within ",
            window,
            b" seconds.\n",
        ],
    )
}

/// The eras of the delete and the read.
fn push_eras(
    alloc: Global,
    text: &mut Vec<u8>,
    scene: &Scene<'_>,
    table: &[Moment],
) -> Result<(), AllocError>
    ensures { OnOk result (text.new.items ≡ text.old.items ++ eras_sentence (scene_of scene.now) (map (λ m. m.0) table.now)) }
{
    let finding = scene.finding;
    let op = finding.op.name().as_bytes();
    let delete_era = era_words(alloc, table, finding.place.era)?;
    if finding.window == 0 {
        return push_one_era(text, op, delete_era.as_slice());
    }
    let era = era_words(alloc, table, finding.place.get_era)?;
    let window = number_text(alloc, finding.window as usize)?;
    push_two_eras(
        text,
        delete_era.as_slice(),
        op,
        era.as_slice(),
        window.as_slice(),
    )
}

/// The eras, where the table of breaks isn't empty.
pub(crate) fn push_era(
    alloc: Global,
    text: &mut Vec<u8>,
    scene: &Scene<'_>,
    table: &[Moment],
) -> Result<(), AllocError>
    ensures { OnOk result (text.new.items ≡ text.old.items ++ era_sentence (scene_of scene.now) (map (λ m. m.0) table.now)) }
{
    if table.is_empty() {
        return Ok(());
    }
    push_eras(alloc, text, scene, table)
}
