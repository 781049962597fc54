//! A text with changes.

use crate::fault::MendFault;
use mcv_spans::Span;

/// What comes in place of the bytes of a span, in front of those at its start where it is empty.
#[derive(Drop)]
pub struct Edit {
    pub span: Span,
    pub text: Vec<u8>,
}

/// The bytes of a text at a span.
pub fn at_span(text: &[u8], span: Span) -> Result<&[u8], MendFault> {
    text.get(span.start..span.end).ok_or(MendFault::GaveUp)
}

/// Adds the bytes of a text at a span, the edits made, which are within it and apart.
pub fn push_edited(
    out: &mut Vec<u8>,
    text: &[u8],
    span: Span,
    mut edits: Vec<Edit>,
) -> Result<(), MendFault> {
    edits.sort_by_key(|edit| edit.span.start)?;
    let mut at = span.start;
    for edit in &edits {
        out.extend_from_slice(at_span(
            text,
            Span {
                start: at,
                end: edit.span.start,
            },
        )?)?;
        out.extend_from_slice(edit.text.as_slice())?;
        at = edit.span.end;
    }
    out.extend_from_slice(at_span(
        text,
        Span {
            start: at,
            end: span.end,
        },
    )?)?;
    Ok(())
}
