//! Routes as a picture: SVG, or a graph for Graphviz.
//!
//! `draw` adds a route to a picture: an element for each handle at its position (specs/Drawn.antt), with what the verdict
//! marks there (specs/Marks.antt). `svg` and `dot` are functions of the elements (specs/Svg.antt, Dot.antt), in which what
//! comes from the configuration is escaped (specs/Markup.antt).
#![tactic(auto)]

mod children;
mod edge;
mod element;
mod graph;
mod label;
mod laws;
mod legs;
mod marks;
mod markup;
mod picture;
mod pieces;
mod shapes;
mod vector;
mod walk;

pub use graph::dot;
pub use laws::{each_is_drawn_once, texts_are_escaped, texts_are_quoted};
pub use marks::Marks;
pub use picture::Picture;
pub use vector::svg;
pub use walk::{Drawing, draw};
