//! The sentences of an explanation, one by one.

ghost use Rattle.std.specs.Prelude.{◌≡◌, ◌++◌, IfOk, OnOk, nat_lt};
ghost use Rattle.std.specs.List.{list_any};
ghost use Rattle.mcv_pools.specs.Symbol.{SymbolValue};
ghost use Rattle.mcv_explain.specs.Explanation.{alike_sentence, alike_words, class_words, delete_sentence, get_words, hash_words, hit_words, leg_line, leg_lines, leg_words, lost_sentence, lost_words, unsent_words};
ghost use Rattle.mcv_explain.specs.Scene.{scene_of};
ghost use Rattle.mcv_witness.specs.Finding.{outcomes_of};

use crate::pieces::{escaped_text, number_text, position_text, push_pieces};
use crate::scene::Scene;
use crate::words::outcome_word;
use mcv_base::{Op, Position};
use mcv_pools::Symbol;
use mcv_witness::LegOutcome;
use std::alloc::{AllocError, Global};

// ---- what is lost, and for which keys

#[tactic(auto, unfolding(crate::specs::Explanation::lost_words))]
fn push_lost_words(
    text: &mut Vec<u8>,
    key: &[u8],
    op: &[u8],
    server: &[u8],
) -> Result<(), AllocError>
    ensures { OnOk result (text.new.items ≡ text.old.items ++ lost_words key.now op.now server.now) }
{
    push_pieces(
        text,
        &[
            b"After a delete of the key ",
            key,
            b" is acknowledged, a later ",
            op,
            b" of it can be answered by ",
            server,
            b", to which the delete was never sent.\n",
        ],
    )
}

pub(crate) fn push_lost(
    alloc: Global,
    text: &mut Vec<u8>,
    scene: &Scene<'_>,
) -> Result<(), AllocError>
    ensures { OnOk result (text.new.items ≡ text.old.items ++ lost_sentence (scene_of scene.now)) }
{
    let key = escaped_text(alloc, scene.finding.key.as_slice())?;
    let op = scene.finding.op.name().as_bytes();
    push_lost_words(text, key.as_slice(), op, scene.lost_server())
}

/// Which keys of a route a class has.
fn class_words(alloc: Global, class: &[u8]) -> Result<Vec<u8>, AllocError>
    ensures { IfOk result (λ text. text.items ≡ class_words class.now) }
{
    if class.is_empty() {
        return Vec::from_slice(alloc, b"begins with none of its policy prefixes");
    }
    let word = escaped_text(alloc, class)?;
    let mut text = Vec::new(alloc);
    push_pieces(
        &mut text,
        &[b"has ", word.as_slice(), b" as its longest policy prefix"],
    )?;
    Ok(text)
}

/// Whether a symbol is over more than one server.
fn has_choice(symbols: &[Symbol]) -> bool
    ensures { result ≡ list_any (λ (y : SymbolValue). nat_lt 1 y.n) symbols.now }
{
    for symbol in symbols {
        if symbol.n() > 1 {
            return true;
        }
    }
    false
}

#[tactic(auto, unfolding(crate::specs::Explanation::hash_words))]
fn hash_words(symbols: &[Symbol]) -> &'static [u8]
    ensures { result.now ≡ hash_words symbols.now }
{
    if has_choice(symbols) {
        b" and for which each hash picks the index above"
    } else {
        b""
    }
}

#[tactic(auto, unfolding(crate::specs::Explanation::alike_words))]
fn push_alike_words(
    text: &mut Vec<u8>,
    number: &[u8],
    route: &[u8],
    class: &[u8],
    hashes: &[u8],
) -> Result<(), AllocError>
    ensures { OnOk result (text.new.items ≡ text.old.items ++ alike_words number.now route.now class.now hashes.now) }
{
    push_pieces(
        text,
        &[
            b"So it is with each key of route ",
            number,
            b" (",
            route,
            b") whose rest ",
            class,
            hashes,
            b".\n",
        ],
    )
}

pub(crate) fn push_alike(
    alloc: Global,
    text: &mut Vec<u8>,
    scene: &Scene<'_>,
) -> Result<(), AllocError>
    ensures { OnOk result (text.new.items ≡ text.old.items ++ alike_sentence (scene_of scene.now)) }
{
    let place = &scene.finding.place;
    let number = number_text(alloc, place.route)?;
    let route = scene.handle_pointer(alloc, &Position::root(alloc))?;
    let route = escaped_text(alloc, route.as_slice())?;
    let class = class_words(alloc, place.class.as_slice())?;
    let hashes = hash_words(scene.routes.symbols().as_slice());
    push_alike_words(
        text,
        number.as_slice(),
        route.as_slice(),
        class.as_slice(),
        hashes,
    )
}

// ---- the legs

#[tactic(auto, unfolding(crate::specs::Explanation::leg_words))]
fn push_leg_words(
    text: &mut Vec<u8>,
    position: &[u8],
    handle: &[u8],
    server: &[u8],
    pointer: &[u8],
    answer: &[u8],
) -> Result<(), AllocError>
    ensures { OnOk result (text.new.items ≡ text.old.items ++ leg_words position.now handle.now server.now pointer.now answer.now) }
{
    push_pieces(
        text,
        &[
            b"  ",
            position,
            b" at ",
            handle,
            b": ",
            server,
            b" (",
            pointer,
            b") answers ",
            answer,
            b"\n",
        ],
    )
}

#[tactic(auto, unfolding(crate::specs::Explanation::leg_line))]
fn push_leg(
    alloc: Global,
    text: &mut Vec<u8>,
    scene: &Scene<'_>,
    op: Op,
    leg: &LegOutcome,
) -> Result<(), AllocError>
    ensures { OnOk result (text.new.items ≡ text.old.items ++ leg_line (scene_of scene.now) op (leg.now.position, leg.now.outcome)) }
{
    let position = position_text(alloc, &leg.position)?;
    let handle = scene.handle_pointer(alloc, &leg.position)?;
    let handle = escaped_text(alloc, handle.as_slice())?;
    let server = scene.leg_server(&leg.position);
    let pointer = scene.server_pointer(alloc, &leg.position)?;
    let pointer = escaped_text(alloc, pointer.as_slice())?;
    push_leg_words(
        text,
        position.as_slice(),
        handle.as_slice(),
        server,
        pointer.as_slice(),
        outcome_word(op, leg.outcome),
    )
}

pub(crate) fn push_legs(
    alloc: Global,
    text: &mut Vec<u8>,
    scene: &Scene<'_>,
    op: Op,
    legs: &[LegOutcome],
) -> Result<(), AllocError>
    ensures { OnOk result (text.new.items ≡ text.old.items ++ leg_lines (scene_of scene.now) op (outcomes_of legs.now)) }
{
    for leg in legs {
        push_leg(alloc, text, scene, op, leg)?;
    }
    Ok(())
}

#[tactic(auto, unfolding(crate::specs::Explanation::delete_sentence))]
pub(crate) fn delete_sentence(legs: &[LegOutcome]) -> &'static [u8]
    ensures { result.now ≡ delete_sentence (outcomes_of legs.now) }
{
    if legs.is_empty() {
        b"The delete is acknowledged before any server has answered it.\n"
    } else {
        b"The delete is acknowledged once it is answered so:\n"
    }
}

#[tactic(auto, unfolding(crate::specs::Explanation::unsent_words))]
pub(crate) fn push_unsent(text: &mut Vec<u8>, server: &[u8]) -> Result<(), AllocError>
    ensures { OnOk result (text.new.items ≡ text.old.items ++ unsent_words server.now) }
{
    push_pieces(text, &[b"By then it was not sent to ", server, b".\n"])
}

#[tactic(auto, unfolding(crate::specs::Explanation::get_words))]
pub(crate) fn push_get(text: &mut Vec<u8>, op: &[u8]) -> Result<(), AllocError>
    ensures { OnOk result (text.new.items ≡ text.old.items ++ get_words op.now) }
{
    push_pieces(
        text,
        &[b"The ", op, b" has a reply once it is answered so:\n"],
    )
}

#[tactic(auto, unfolding(crate::specs::Explanation::hit_words))]
pub(crate) fn push_hit(text: &mut Vec<u8>, leaf: &[u8], server: &[u8]) -> Result<(), AllocError>
    ensures { OnOk result (text.new.items ≡ text.old.items ++ hit_words leaf.now server.now) }
{
    push_pieces(
        text,
        &[
            b"The answer at ",
            leaf,
            b" can be that reply: what ",
            server,
            b" still has from before the delete.\n",
        ],
    )
}
