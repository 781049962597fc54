//! Texts in pieces.

ghost use Rattle.std.specs.Prelude.{◌≡◌, ◌++◌, IfOk, OnOk, decimal, map};
ghost use Rattle.mcv_base.specs.Position.{position_text};
ghost use Rattle.mcv_cert.specs.Escape.{escaped};
ghost use Rattle.mcv_route.specs.Children.{joined};

use mcv_base::{Position, push_number};
use mcv_cert::push_escaped;
use std::alloc::{AllocError, Global};

/// Adds the pieces, one behind the other.
pub(crate) fn push_pieces(text: &mut Vec<u8>, pieces: &[&[u8]]) -> Result<(), AllocError>
    ensures { OnOk result (text.new.items ≡ text.old.items ++ joined (map (λ p. p.now) pieces.entry.now)) }
{
    for piece in pieces {
        text.extend_from_slice(*piece)?;
    }
    Ok(())
}

/// The text of a number.
pub(crate) fn number_text(alloc: Global, number: usize) -> Result<Vec<u8>, AllocError>
    ensures { IfOk result (λ text. text.items ≡ decimal number) }
{
    let mut text = Vec::new(alloc);
    push_number(&mut text, number)?;
    Ok(text)
}

/// A word, escaped.
pub(crate) fn escaped_text(alloc: Global, word: &[u8]) -> Result<Vec<u8>, AllocError>
    ensures { IfOk result (λ text. text.items ≡ escaped word.now) }
{
    let mut text = Vec::new(alloc);
    push_escaped(&mut text, word)?;
    Ok(text)
}

/// The text of a position.
pub(crate) fn position_text(alloc: Global, position: &Position) -> Result<Vec<u8>, AllocError>
    ensures { IfOk result (λ text. text.items ≡ position_text position.now) }
{
    let mut text = Vec::new(alloc);
    position.push_text(&mut text)?;
    Ok(text)
}
