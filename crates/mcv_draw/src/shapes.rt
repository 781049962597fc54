//! The shapes of SVG, of what they hold.

ghost use Rattle.std.specs.Prelude.{◌≡◌, ◌++◌, OnOk};
ghost use Rattle.mcv_draw.specs.Svg.{group_words, head_words, path_words, rect_words, text_words};

use crate::pieces::push_pieces;
use std::alloc::AllocError;

/// Adds a line that goes down from a point, and then across.
#[tactic(auto, unfolding(crate::specs::Svg::path_words))]
pub(crate) fn push_path(
    text: &mut Vec<u8>,
    x: &[u8],
    y: &[u8],
    down: &[u8],
    across: &[u8],
    stroke: &[u8],
) -> Result<(), AllocError>
    ensures { OnOk result (text.new.items ≡ text.old.items ++ path_words x.now y.now down.now across.now stroke.now) }
{
    push_pieces(
        text,
        &[
            b"<path fill=\"none\" d=\"M",
            x,
            b" ",
            y,
            b" V",
            down,
            b" H",
            across,
            b"\"",
            stroke,
            b"/>\n",
        ],
    )
}

/// Adds a box, 26 high.
#[tactic(auto, unfolding(crate::specs::Svg::rect_words))]
pub(crate) fn push_rect(
    text: &mut Vec<u8>,
    x: &[u8],
    y: &[u8],
    width: &[u8],
    fill: &[u8],
    stroke: &[u8],
) -> Result<(), AllocError>
    ensures { OnOk result (text.new.items ≡ text.old.items ++ rect_words x.now y.now width.now fill.now stroke.now) }
{
    push_pieces(
        text,
        &[
            b"<rect x=\"",
            x,
            b"\" y=\"",
            y,
            b"\" width=\"",
            width,
            b"\" height=\"26\" rx=\"4\"",
            fill,
            stroke,
            b"/>\n",
        ],
    )
}

/// Adds a text, which has to be one of XML.
#[tactic(auto, unfolding(crate::specs::Svg::text_words))]
pub(crate) fn push_text(
    text: &mut Vec<u8>,
    x: &[u8],
    y: &[u8],
    said: &[u8],
) -> Result<(), AllocError>
    ensures { OnOk result (text.new.items ≡ text.old.items ++ text_words x.now y.now said.now) }
{
    push_pieces(
        text,
        &[b"<text x=\"", x, b"\" y=\"", y, b"\">", said, b"</text>\n"],
    )
}

/// Adds a group with its name.
#[tactic(auto, unfolding(crate::specs::Svg::group_words))]
pub(crate) fn push_group(
    text: &mut Vec<u8>,
    identifier: &[u8],
    inside: &[u8],
) -> Result<(), AllocError>
    ensures { OnOk result (text.new.items ≡ text.old.items ++ group_words identifier.now inside.now) }
{
    push_pieces(
        text,
        &[b"<g id=\"", identifier, b"\">\n", inside, b"</g>\n"],
    )
}

/// Adds what a picture begins with: its size, its letters and its ground.
#[tactic(auto, unfolding(crate::specs::Svg::head_words))]
pub(crate) fn push_head(text: &mut Vec<u8>, width: &[u8], height: &[u8]) -> Result<(), AllocError>
    ensures { OnOk result (text.new.items ≡ text.old.items ++ head_words width.now height.now) }
{
    push_pieces(
        text,
        &[
            b"<svg xmlns=\"http://www.w3.org/2000/svg\" width=\"",
            width,
            b"\" height=\"",
            height,
            b"\" font-family=\"monospace\" font-size=\"13\">\n<rect width=\"100%\" height=\"100%\" fill=\"#ffffff\"/>\n",
        ],
    )
}
