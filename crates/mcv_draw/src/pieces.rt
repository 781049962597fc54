//! Texts in pieces.

ghost use Rattle.std.specs.Prelude.{◌≡◌, ◌++◌, IfOk, OnOk, decimal, map};
ghost use Rattle.mcv_draw.specs.Markup.{dot_text, xml_text};
ghost use Rattle.mcv_route.specs.Children.{joined};

use crate::markup::{push_dot, push_xml};
use mcv_base::push_number;
use std::alloc::{AllocError, Global};

/// Adds the pieces, one behind the other.
pub(crate) fn push_pieces(text: &mut Vec<u8>, pieces: &[&[u8]]) -> Result<(), AllocError>
    ensures { OnOk result (text.new.items ≡ text.old.items ++ joined (map (λ p. p.now) pieces.entry.now)) }
{
    for piece in pieces {
        text.extend_from_slice(*piece)?;
    }
    Ok(())
}

/// The text of a number.
pub(crate) fn number_text(alloc: Global, number: usize) -> Result<Vec<u8>, AllocError>
    ensures { IfOk result (λ text. text.items ≡ decimal number) }
{
    let mut text = Vec::new(alloc);
    push_number(&mut text, number)?;
    Ok(text)
}

/// Plain bytes as a text of XML.
pub(crate) fn xml_of(alloc: Global, bytes: &[u8]) -> Result<Vec<u8>, AllocError>
    ensures { IfOk result (λ text. text.items ≡ xml_text bytes.now) }
{
    let mut text = Vec::new(alloc);
    push_xml(&mut text, bytes)?;
    Ok(text)
}

/// Plain bytes as a text between quotes of Graphviz's language.
pub(crate) fn dot_of(alloc: Global, bytes: &[u8]) -> Result<Vec<u8>, AllocError>
    ensures { IfOk result (λ text. text.items ≡ dot_text bytes.now) }
{
    let mut text = Vec::new(alloc);
    push_dot(&mut text, bytes)?;
    Ok(text)
}
