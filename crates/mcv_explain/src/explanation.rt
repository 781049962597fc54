//! The explanation of a finding.

ghost use Rattle.std.specs.Prelude.{◌≡◌, ◌++◌, ℕ, List, OnOk, map};
ghost use Rattle.mcv_explain.specs.Explanation.{explanation, how_it_is_deleted, how_it_is_read, what_is_lost};
ghost use Rattle.mcv_explain.specs.Scene.{scene_of};
ghost use Rattle.mcv_route.specs.Eras.{IsBreakTable, breaks_of};

use crate::eras::push_era;
use crate::pieces::position_text;
use crate::scene::Scene;
use crate::sentences::{
    delete_sentence, push_alike, push_get, push_hit, push_legs, push_lost, push_unsent,
};
use mcv_base::{Moment, Op};
use std::alloc::{AllocError, Global};

/// Adds the explanation of a finding. On an error part of it may be there.
pub fn push_explanation(
    alloc: Global,
    text: &mut Vec<u8>,
    scene: &Scene<'_>,
) -> Result<(), AllocError>
    ensures { OnOk result ((table : List ℕ) × IsBreakTable (breaks_of scene.now.routes.now) table
        × (text.new.items ≡ text.old.items ++ explanation (scene_of scene.now) table)) }
{
    let table = scene.routes.breaks();
    push_sentences(alloc, text, scene, table)
}

/// The same with the table of breaks.
fn push_sentences(
    alloc: Global,
    text: &mut Vec<u8>,
    scene: &Scene<'_>,
    table: &[Moment],
) -> Result<(), AllocError>
    ensures { OnOk result (text.new.items ≡ text.old.items ++ explanation (scene_of scene.now) (map (λ m. m.0) table.now)) }
{
    push_what_is_lost(alloc, text, scene, table)?;
    push_how_it_is_deleted(alloc, text, scene)?;
    push_how_it_is_read(alloc, text, scene)
}

#[tactic(auto, unfolding(crate::specs::Explanation::what_is_lost))]
fn push_what_is_lost(
    alloc: Global,
    text: &mut Vec<u8>,
    scene: &Scene<'_>,
    table: &[Moment],
) -> Result<(), AllocError>
    ensures { OnOk result (text.new.items ≡ text.old.items ++ what_is_lost (scene_of scene.now) (map (λ m. m.0) table.now)) }
{
    text.extend_from_slice(b"\n")?;
    push_lost(alloc, text, scene)?;
    push_alike(alloc, text, scene)?;
    push_era(alloc, text, scene, table)
}

#[tactic(auto, unfolding(crate::specs::Explanation::how_it_is_deleted))]
fn push_how_it_is_deleted(
    alloc: Global,
    text: &mut Vec<u8>,
    scene: &Scene<'_>,
) -> Result<(), AllocError>
    ensures { OnOk result (text.new.items ≡ text.old.items ++ how_it_is_deleted (scene_of scene.now)) }
{
    let deletes = scene.finding.deletes.as_slice();
    text.extend_from_slice(delete_sentence(deletes))?;
    push_legs(alloc, text, scene, Op::Delete, deletes)?;
    push_unsent(text, scene.lost_server())
}

#[tactic(auto, unfolding(crate::specs::Explanation::how_it_is_read))]
fn push_how_it_is_read(
    alloc: Global,
    text: &mut Vec<u8>,
    scene: &Scene<'_>,
) -> Result<(), AllocError>
    ensures { OnOk result (text.new.items ≡ text.old.items ++ how_it_is_read (scene_of scene.now)) }
{
    let finding = scene.finding;
    let leaf = position_text(alloc, &finding.place.leaf)?;
    push_get(text, finding.op.name().as_bytes())?;
    push_legs(alloc, text, scene, finding.op, finding.gets.as_slice())?;
    push_hit(text, leaf.as_slice(), scene.lost_server())
}
