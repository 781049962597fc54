//! The picture as SVG.

ghost use Rattle.std.specs.Prelude.{◌≡◌, ◌++◌, ◌<◌, ◌^◌, IfOk, OnOk, map};
ghost use Rattle.std.specs.List.{flat_map};
ghost use Rattle.mcv_draw.specs.Element.{element_of};
ghost use Rattle.mcv_draw.specs.Svg.{at_most, box_shape, box_text, caption, colour, edge_of, edge_word, element_text, fill, head, identifier, if_marked, inside, left_of, note, notes_from, right_of, stroke, svg, tags, text_width, thickness, top_of, widest, widest_note};
ghost use Rattle.mcv_draw.specs.Walk.{elements_of};

use crate::element::Element;
use crate::marks::Marked;
use crate::picture::Picture;
use crate::pieces::{number_text, push_pieces, xml_of};
use crate::shapes::{push_group, push_head, push_path, push_rect, push_text};
use mcv_base::push_number;
use std::alloc::{AllocError, Global};

/// The most bytes of a text that count for the width of its box.
const WIDTH_LIMIT: usize = 1000;

/// The lowest row, and the last column.
const PLACE_LIMIT: usize = 4_294_967_295;

/// The picture as SVG, with the notes below it, a line each. Any bytes may be in a note.
pub fn svg(alloc: Global, picture: &Picture, notes: &[Vec<u8>]) -> Result<Vec<u8>, AllocError>
    ensures { IfOk result (λ text. text.items ≡ svg (elements_of picture.now) (map (λ n. n.items) notes.now)) }
{
    let mut text = Vec::new(alloc);
    push_size(alloc, &mut text, picture, notes)?;
    push_elements(alloc, &mut text, picture.elements.as_slice())?;
    push_notes(alloc, &mut text, picture.rows, notes)?;
    text.extend_from_slice(b"</svg>\n")?;
    Ok(text)
}

/// Adds what comes before the elements.
fn push_size(
    alloc: Global,
    text: &mut Vec<u8>,
    picture: &Picture,
    notes: &[Vec<u8>],
) -> Result<(), AllocError>
    ensures { OnOk result (text.new.items ≡ text.old.items ++ head (elements_of picture.now) (map (λ n. n.items) notes.now)) }
{
    let width = widest_element(alloc, picture.elements.as_slice())?.max(widest_note(notes));
    let height = top_of(picture.rows) + 20 * at_most(notes.len());
    let width = number_text(alloc, width + 16)?;
    let height = number_text(alloc, height + 16)?;
    push_head(text, width.as_slice(), height.as_slice())
}

/// A row or a column, or the last one.
fn at_most(place: usize) -> usize
    ensures value { result ≡ at_most place }
    ensures small { result < 2 ^ 32 }
{
    place.min(PLACE_LIMIT)
}
// ---- where boxes are

fn left_of(depth: usize) -> usize
    ensures value { result ≡ left_of depth }
    ensures small { result < 2 ^ 40 }
{
    16 + 40 * at_most(depth)
}

fn top_of(row: usize) -> usize
    ensures value { result ≡ top_of row }
    ensures small { result < 2 ^ 40 }
{
    16 + 36 * at_most(row)
}

fn text_width(text: &[u8]) -> usize
    ensures value { result ≡ text_width text.now }
    ensures small { result < 2 ^ 14 }
{
    16 + 8 * text.len().min(WIDTH_LIMIT)
}

// ---- what stands in a box

/// The tag, where it is to be set.
pub(crate) fn if_marked(marked: bool, tag: &'static [u8]) -> &'static [u8]
    ensures { result.now ≡ if_marked marked tag.now }
{
    if marked { tag } else { b"" }
}

#[tactic(auto, unfolding(crate::specs::Svg::tags))]
fn push_tags(text: &mut Vec<u8>, marked: Marked) -> Result<(), AllocError>
    ensures { OnOk result (text.new.items ≡ text.old.items ++ tags marked) }
{
    let delete = if_marked(marked.deletes, b" [delete]");
    let read = if_marked(marked.is_readable, b" [read]");
    let lost = if_marked(marked.is_lost, b" [LOST]");
    push_pieces(text, &[delete, read, lost])
}

fn push_edge_word(text: &mut Vec<u8>, word: &[u8]) -> Result<(), AllocError>
    ensures { OnOk result (text.new.items ≡ text.old.items ++ edge_word word.now) }
{
    if word.is_empty() {
        return Ok(());
    }
    text.extend_from_slice(word)?;
    text.extend_from_slice(b": ")
}

/// What stands in the box of an element.
fn box_text(alloc: Global, element: &Element) -> Result<Vec<u8>, AllocError>
    ensures { IfOk result (λ text. text.items ≡ box_text (element_of element.now)) }
{
    let mut text = Vec::new(alloc);
    push_edge_word(&mut text, element.word.as_slice())?;
    push_label(&mut text, element)?;
    Ok(text)
}

/// The label of an element with its tags.
pub(crate) fn push_label(text: &mut Vec<u8>, element: &Element) -> Result<(), AllocError>
    ensures { OnOk result (text.new.items ≡ text.old.items ++ (element_of element.now).label ++ tags element.now.marked) }
{
    text.extend_from_slice(element.label.as_slice())?;
    push_tags(text, element.marked)
}

// ---- the size

fn right_of(alloc: Global, element: &Element) -> Result<usize, AllocError>
    ensures value { IfOk result (λ right. right ≡ right_of (element_of element.now)) }
    ensures small { IfOk result (λ right. right < 2 ^ 41) }
{
    let text = box_text(alloc, element)?;
    Ok(left_of(element.depth()) + text_width(text.as_slice()))
}

fn widest_element(alloc: Global, elements: &[Element]) -> Result<usize, AllocError>
    ensures value { IfOk result (λ width. width ≡ widest (map element_of elements.now)) }
    ensures small { IfOk result (λ width. width < 2 ^ 41) }
{
    let mut width = 0;
    for element in elements {
        width = width.max(right_of(alloc, element)?);
    }
    Ok(width)
}

fn widest_note(notes: &[Vec<u8>]) -> usize
    ensures value { result ≡ widest_note (map (λ n. n.items) notes.now) }
    ensures small { result < 2 ^ 15 }
{
    let mut width = 0;
    for note in notes {
        width = width.max(16 + text_width(note.as_slice()));
    }
    width
}

// ---- elements

#[tactic(auto, unfolding(crate::specs::Svg::colour))]
fn colour(marked: Marked) -> &'static [u8]
    ensures { result.now ≡ colour marked }
{
    if marked.deletes {
        b" stroke=\"#b3261e\" stroke-dasharray=\"7 3\""
    } else if marked.is_readable {
        b" stroke=\"#1a56c4\""
    } else {
        b" stroke=\"#555555\""
    }
}

#[tactic(auto, unfolding(crate::specs::Svg::thickness))]
fn thickness(marked: Marked) -> &'static [u8]
    ensures { result.now ≡ thickness marked }
{
    if marked.is_shown {
        b" stroke-width=\"4\""
    } else {
        b" stroke-width=\"1\""
    }
}

fn stroke(alloc: Global, marked: Marked) -> Result<Vec<u8>, AllocError>
    ensures { IfOk result (λ text. text.items ≡ stroke marked) }
{
    let mut text = Vec::from_slice(alloc, colour(marked))?;
    text.extend_from_slice(thickness(marked))?;
    Ok(text)
}

#[tactic(auto, unfolding(crate::specs::Svg::fill))]
fn fill(marked: Marked) -> &'static [u8]
    ensures { result.now ≡ fill marked }
{
    if marked.is_lost {
        b" fill=\"#ffd9d6\""
    } else if marked.is_readable {
        b" fill=\"#dbe8ff\""
    } else {
        b" fill=\"#ffffff\""
    }
}

/// The name of an element.
#[tactic(auto, unfolding(crate::specs::Svg::identifier))]
pub(crate) fn identifier(alloc: Global, element: &Element) -> Result<Vec<u8>, AllocError>
    ensures { IfOk result (λ text. text.items ≡ identifier (element_of element.now)) }
{
    let mut text = Vec::new(alloc);
    text.extend_from_slice(b"r")?;
    push_number(&mut text, element.route)?;
    text.extend_from_slice(b"p")?;
    element.position.push_text(&mut text)?;
    Ok(text)
}

/// Adds the edge from the handle above.
#[tactic(auto, unfolding(crate::specs::Svg::edge_of))]
fn push_edge(
    alloc: Global,
    text: &mut Vec<u8>,
    element: &Element,
    row: usize,
) -> Result<(), AllocError>
    ensures { OnOk result (text.new.items ≡ text.old.items ++ edge_of (element_of element.now) row) }
{
    let depth = element.depth();
    if depth == 0 {
        return Ok(());
    }
    let x = number_text(alloc, left_of(depth - 1) + 12)?;
    let y = number_text(alloc, top_of(element.above) + 26)?;
    let down = number_text(alloc, top_of(row) + 13)?;
    let across = number_text(alloc, left_of(depth))?;
    let stroke = stroke(alloc, element.marked)?;
    push_path(
        text,
        x.as_slice(),
        y.as_slice(),
        down.as_slice(),
        across.as_slice(),
        stroke.as_slice(),
    )
}

#[tactic(auto, unfolding(crate::specs::Svg::box_shape))]
fn push_box(
    alloc: Global,
    text: &mut Vec<u8>,
    element: &Element,
    row: usize,
    width: usize,
) -> Result<(), AllocError>
    requires { width ≡ text_width (box_text (element_of element.now)) }
    ensures { OnOk result (text.new.items ≡ text.old.items ++ box_shape (element_of element.now) row) }
{
    let x = number_text(alloc, left_of(element.depth()))?;
    let y = number_text(alloc, top_of(row))?;
    let width = number_text(alloc, width)?;
    let stroke = stroke(alloc, element.marked)?;
    push_rect(
        text,
        x.as_slice(),
        y.as_slice(),
        width.as_slice(),
        fill(element.marked),
        stroke.as_slice(),
    )
}

#[tactic(auto, unfolding(crate::specs::Svg::caption))]
fn push_caption(
    alloc: Global,
    text: &mut Vec<u8>,
    element: &Element,
    row: usize,
    said: &[u8],
) -> Result<(), AllocError>
    requires { said.now ≡ box_text (element_of element.now) }
    ensures { OnOk result (text.new.items ≡ text.old.items ++ caption (element_of element.now) row) }
{
    let x = number_text(alloc, left_of(element.depth()) + 8)?;
    let y = number_text(alloc, top_of(row) + 18)?;
    let said = xml_of(alloc, said)?;
    push_text(text, x.as_slice(), y.as_slice(), said.as_slice())
}

/// What is seen of an element; of one that is folded away nothing.
fn inside(alloc: Global, element: &Element) -> Result<Vec<u8>, AllocError>
    ensures { IfOk result (λ text. text.items ≡ inside (element_of element.now) element.now.row) }
{
    let mut text = Vec::new(alloc);
    let Some(row) = element.row else {
        return Ok(text);
    };
    let said = box_text(alloc, element)?;
    push_edge(alloc, &mut text, element, row)?;
    push_box(alloc, &mut text, element, row, text_width(said.as_slice()))?;
    push_caption(alloc, &mut text, element, row, said.as_slice())?;
    Ok(text)
}

#[tactic(auto, unfolding(crate::specs::Svg::element_text))]
fn push_element(alloc: Global, text: &mut Vec<u8>, element: &Element) -> Result<(), AllocError>
    ensures { OnOk result (text.new.items ≡ text.old.items ++ element_text (element_of element.now)) }
{
    let name = identifier(alloc, element)?;
    let inside = inside(alloc, element)?;
    push_group(text, name.as_slice(), inside.as_slice())
}

fn push_elements(alloc: Global, text: &mut Vec<u8>, elements: &[Element]) -> Result<(), AllocError>
    ensures { OnOk result (text.new.items ≡ text.old.items ++ flat_map element_text (map element_of elements.now)) }
{
    for element in elements {
        push_element(alloc, text, element)?;
    }
    Ok(())
}

// ---- notes

#[tactic(auto, unfolding(crate::specs::Svg::note))]
fn push_note(
    alloc: Global,
    text: &mut Vec<u8>,
    rows: usize,
    number: usize,
    said: &[u8],
) -> Result<(), AllocError>
    ensures { OnOk result (text.new.items ≡ text.old.items ++ note rows number said.now) }
{
    let y = number_text(alloc, top_of(rows) + 20 * at_most(number) + 18)?;
    let said = xml_of(alloc, said)?;
    push_text(text, b"16", y.as_slice(), said.as_slice())
}

fn push_notes(
    alloc: Global,
    text: &mut Vec<u8>,
    rows: usize,
    notes: &[Vec<u8>],
) -> Result<(), AllocError>
    ensures { OnOk result (text.new.items ≡ text.old.items ++ notes_from rows 0 (map (λ n. n.items) notes.now)) }
{
    for (number, note) in notes.iter().enumerate() {
        push_note(alloc, text, rows, number, note.as_slice())?;
    }
    Ok(())
}
