//! The picture as Graphviz reads it.

ghost use Rattle.std.specs.Prelude.{◌≡◌, ◌++◌, IfOk, OnOk};
ghost use Rattle.mcv_draw.specs.Dot.{dot, dot_colour, dot_edge, dot_head, dot_line, dot_node, dot_style, edge_words, folded_words, node_words, parent_of};
ghost use Rattle.mcv_draw.specs.Element.{element_of};
ghost use Rattle.mcv_draw.specs.Svg.{identifier};
ghost use Rattle.mcv_draw.specs.Walk.{elements_of};

use crate::element::Element;
use crate::marks::Marked;
use crate::picture::Picture;
use crate::pieces::{dot_of, push_pieces};
use crate::vector::{identifier, if_marked, push_label};
use mcv_base::{Position, push_number};
use std::alloc::{AllocError, Global};

/// The picture as a graph for Graphviz.
pub fn dot(alloc: Global, picture: &Picture) -> Result<Vec<u8>, AllocError>
    ensures { IfOk result (λ text. text.items ≡ dot (elements_of picture.now)) }
{
    let mut text = Vec::from_slice(alloc, dot_head())?;
    for element in &picture.elements {
        push_element(alloc, &mut text, element)?;
    }
    text.extend_from_slice(b"}\n")?;
    Ok(text)
}

#[tactic(auto, unfolding(crate::specs::Dot::dot_head))]
fn dot_head() -> &'static [u8]
    ensures { result.now ≡ dot_head }
{
    b"digraph mcv {\nrankdir=LR;\nnode [shape=box fontname=monospace];\n"
}

#[tactic(auto, unfolding(crate::specs::Dot::dot_colour))]
fn dot_colour(marked: Marked) -> &'static [u8]
    ensures { result.now ≡ dot_colour marked }
{
    if marked.deletes {
        b" color=\"#b3261e\" style=dashed"
    } else if marked.is_readable {
        b" color=\"#1a56c4\""
    } else {
        b""
    }
}

#[tactic(auto, unfolding(crate::specs::Dot::dot_style))]
fn push_style(text: &mut Vec<u8>, marked: Marked) -> Result<(), AllocError>
    ensures { OnOk result (text.new.items ≡ text.old.items ++ dot_style marked) }
{
    let colour = dot_colour(marked);
    let shown = if_marked(marked.is_shown, b" penwidth=4");
    let lost = if_marked(marked.is_lost, b" fontcolor=\"#b3261e\"");
    push_pieces(text, &[colour, shown, lost])
}

fn dot_style(alloc: Global, marked: Marked) -> Result<Vec<u8>, AllocError>
    ensures { IfOk result (λ text. text.items ≡ dot_style marked) }
{
    let mut text = Vec::new(alloc);
    push_style(&mut text, marked)?;
    Ok(text)
}

#[tactic(auto, unfolding(crate::specs::Dot::node_words))]
fn push_node_words(
    text: &mut Vec<u8>,
    identifier: &[u8],
    label: &[u8],
    style: &[u8],
) -> Result<(), AllocError>
    ensures { OnOk result (text.new.items ≡ text.old.items ++ node_words identifier.now label.now style.now) }
{
    push_pieces(
        text,
        &[
            b"\"",
            identifier,
            b"\" [label=\"",
            label,
            b"\"",
            style,
            b"];\n",
        ],
    )
}

#[tactic(auto, unfolding(crate::specs::Dot::dot_node))]
fn push_node(alloc: Global, text: &mut Vec<u8>, element: &Element) -> Result<(), AllocError>
    ensures { OnOk result (text.new.items ≡ text.old.items ++ dot_node (element_of element.now)) }
{
    let name = identifier(alloc, element)?;
    let mut label = Vec::new(alloc);
    push_label(&mut label, element)?;
    let label = dot_of(alloc, label.as_slice())?;
    let style = dot_style(alloc, element.marked)?;
    push_node_words(text, name.as_slice(), label.as_slice(), style.as_slice())
}

/// The name of the element above, whose position is one step shorter.
#[tactic(auto, unfolding(crate::specs::Svg::identifier))]
fn parent_name(alloc: Global, element: &Element) -> Result<Vec<u8>, AllocError>
    ensures { IfOk result (λ text. text.items ≡ identifier (parent_of (element_of element.now))) }
{
    let steps = element.position.steps();
    let above = Position::at(alloc, &steps[..steps.len().saturating_sub(1)])?;
    let mut text = Vec::new(alloc);
    text.extend_from_slice(b"r")?;
    push_number(&mut text, element.route)?;
    text.extend_from_slice(b"p")?;
    above.push_text(&mut text)?;
    Ok(text)
}

#[tactic(auto, unfolding(crate::specs::Dot::edge_words))]
fn push_edge_words(
    text: &mut Vec<u8>,
    parent: &[u8],
    identifier: &[u8],
    word: &[u8],
    style: &[u8],
) -> Result<(), AllocError>
    ensures { OnOk result (text.new.items ≡ text.old.items ++ edge_words parent.now identifier.now word.now style.now) }
{
    push_pieces(
        text,
        &[
            b"\"",
            parent,
            b"\" -> \"",
            identifier,
            b"\" [label=\"",
            word,
            b"\"",
            style,
            b"];\n",
        ],
    )
}

fn push_edge(alloc: Global, text: &mut Vec<u8>, element: &Element) -> Result<(), AllocError>
    ensures { OnOk result (text.new.items ≡ text.old.items ++ dot_edge (element_of element.now) element.now.position) }
{
    if element.position.steps().is_empty() {
        return Ok(());
    }
    let parent = parent_name(alloc, element)?;
    let name = identifier(alloc, element)?;
    let word = dot_of(alloc, element.word.as_slice())?;
    let style = dot_style(alloc, element.marked)?;
    push_edge_words(
        text,
        parent.as_slice(),
        name.as_slice(),
        word.as_slice(),
        style.as_slice(),
    )
}

#[tactic(auto, unfolding(crate::specs::Dot::folded_words))]
fn push_folded(text: &mut Vec<u8>, identifier: &[u8]) -> Result<(), AllocError>
    ensures { OnOk result (text.new.items ≡ text.old.items ++ folded_words identifier.now) }
{
    push_pieces(text, &[b"// ", identifier, b"\n"])
}

#[tactic(auto, unfolding(crate::specs::Dot::dot_line))]
fn push_element(alloc: Global, text: &mut Vec<u8>, element: &Element) -> Result<(), AllocError>
    ensures { OnOk result (text.new.items ≡ text.old.items ++ dot_line (element_of element.now)) }
{
    if element.row.is_none() {
        let name = identifier(alloc, element)?;
        return push_folded(text, name.as_slice());
    }
    push_node(alloc, text, element)?;
    push_edge(alloc, text, element)
}
