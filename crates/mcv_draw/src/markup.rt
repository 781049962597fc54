//! Texts in SVG and in Graphviz's language.

ghost use Rattle.std.specs.Prelude.{◌≡◌, ◌++◌, OnOk};
ghost use Rattle.mcv_draw.specs.Markup.{dot_byte, dot_text, shown_byte, xml_byte, xml_text};

use std::alloc::AllocError;

/// The byte, or a question mark in place of one that isn't from 32 to 126.
fn shown_byte(byte: u8) -> u8
    ensures { result ≡ shown_byte byte }
{
    if 32 <= byte && byte <= 126 {
        byte
    } else {
        b'?'
    }
}

fn push_xml_byte(text: &mut Vec<u8>, byte: u8) -> Result<(), AllocError>
    ensures { OnOk result (text.new.items ≡ text.old.items ++ xml_byte byte) }
{
    match byte {
        b'&' => text.extend_from_slice(b"&amp;"),
        b'<' => text.extend_from_slice(b"&lt;"),
        b'>' => text.extend_from_slice(b"&gt;"),
        b'"' => text.extend_from_slice(b"&quot;"),
        b'\'' => text.extend_from_slice(b"&#39;"),
        _ => text.extend_from_slice(&[shown_byte(byte)]),
    }
}

/// Adds bytes as a text of XML.
pub(crate) fn push_xml(text: &mut Vec<u8>, bytes: &[u8]) -> Result<(), AllocError>
    ensures { OnOk result (text.new.items ≡ text.old.items ++ xml_text bytes.now) }
{
    for byte in bytes {
        push_xml_byte(text, *byte)?;
    }
    Ok(())
}

fn push_dot_byte(text: &mut Vec<u8>, byte: u8) -> Result<(), AllocError>
    ensures { OnOk result (text.new.items ≡ text.old.items ++ dot_byte byte) }
{
    match byte {
        b'"' => text.extend_from_slice(b"\\\""),
        b'\\' => text.extend_from_slice(b"\\\\"),
        _ => text.extend_from_slice(&[shown_byte(byte)]),
    }
}

/// Adds bytes as a text between quotes of Graphviz's language.
pub(crate) fn push_dot(text: &mut Vec<u8>, bytes: &[u8]) -> Result<(), AllocError>
    ensures { OnOk result (text.new.items ≡ text.old.items ++ dot_text bytes.now) }
{
    for byte in bytes {
        push_dot_byte(text, *byte)?;
    }
    Ok(())
}
