//! What holds of every picture.

ghost use Rattle.mcv_draw.specs.Markup.{TextsAreEscaped, TextsAreQuoted};
ghost use Rattle.mcv_draw.specs.Positions.{EachIsDrawnOnce};

/// What is drawn of a route has an element for each position of its tree, and none twice.
pub fn each_is_drawn_once()
    ensures { EachIsDrawnOnce }
{}

/// No text that is written as a text of XML opens or closes anything.
pub fn texts_are_escaped()
    ensures { TextsAreEscaped }
{}

/// No text that is written between the quotes of Graphviz's language ends there.
pub fn texts_are_quoted()
    ensures { TextsAreQuoted }
{}
