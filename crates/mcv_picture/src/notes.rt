//! What is said below a picture, line by line.

ghost use Rattle.std.specs.Prelude.{◌≡◌, ◌==◌, ◌++◌, IfOk, OnOk, map};
ghost use Rattle.std.specs.List.{flat_map, slice_split};
ghost use Rattle.mcv_picture.specs.Drawing.{if_line, note_lines};

use std::alloc::{AllocError, Global};

/// The lines of a text, without their ends, but for empty ones.
pub(crate) fn lines_of(alloc: Global, text: &[u8]) -> Result<Vec<Vec<u8>>, AllocError>
    ensures { IfOk result (λ lines. map (λ l. l.items) lines.items ≡ note_lines text.now) }
{
    let parts = parts_of(alloc, text)?;
    let mut lines = Vec::new(alloc);
    push_lines(alloc, &mut lines, parts.as_slice())?;
    Ok(lines)
}

/// Adds lines, but for empty ones.
fn push_lines(alloc: Global, lines: &mut Vec<Vec<u8>>, parts: &[&[u8]]) -> Result<(), AllocError>
    ensures { OnOk result (map (λ l. l.items) lines.new.items ≡ map (λ l. l.items) lines.old.items ++ flat_map if_line (map (λ p. p.now) parts.entry.now)) }
{
    for part in parts {
        push_line(alloc, lines, *part)?;
    }
    Ok(())
}

/// The parts of a text between line feeds.
fn parts_of(alloc: Global, text: &[u8]) -> Result<Vec<&[u8]>, AllocError>
    ensures { IfOk result (λ parts. map (λ part. part.now) parts.items ≡ slice_split (λ b. b == 10) text.now) }
{
    text.split(|byte| *byte == b'\n').collect(alloc)
}

/// Adds a line, but for an empty one.
fn push_line(alloc: Global, lines: &mut Vec<Vec<u8>>, line: &[u8]) -> Result<(), AllocError>
    ensures { OnOk result (map (λ l. l.items) lines.new.items ≡ map (λ l. l.items) lines.old.items ++ if_line line.now) }
{
    if line.is_empty() {
        return Ok(());
    }
    let copied = Vec::from_slice(alloc, line)?;
    lines.push(copied)?;
    Ok(())
}
