//! Pictures of a route.

use crate::built::{check_text, routes};
use mcv_base::Position;
use mcv_draw::{Drawing, Marks, Picture, dot, draw, svg};
use mcv_route::Routes;
use std::alloc::{AllocError, Global};
use std::process::Abort;
use std::test::Fail;

const FAILOVER: &str = r#"{"pools": {"A": {"servers": ["a:1"]}, "B": {"servers": ["b:1"]}},
 "route": {"type": "FailoverRoute", "children": ["PoolRoute|A", "PoolRoute|B"]}}"#;

/// A delete goes to the first child, a get can be answered by the second, where it is lost.
const GRAPH: &str = "digraph mcv {
rankdir=LR;
node [shape=box fontname=monospace];
\"r0p-\" [label=\"FailoverRoute [delete]\" color=\"#b3261e\" style=dashed penwidth=4];
\"r0p0\" [label=\"PoolRoute a:1 [delete]\" color=\"#b3261e\" style=dashed penwidth=4];
\"r0p-\" -> \"r0p0\" [label=\"0\" color=\"#b3261e\" style=dashed penwidth=4];
\"r0p1\" [label=\"PoolRoute b:1 [read] [LOST]\" color=\"#1a56c4\" fontcolor=\"#b3261e\"];
\"r0p-\" -> \"r0p1\" [label=\"1\" color=\"#1a56c4\" fontcolor=\"#b3261e\"];
}
";

/// A handle alone, and a note that could be taken for markup.
const PICTURE: &str = "\
<svg xmlns=\"http://www.w3.org/2000/svg\" width=\"120\" height=\"88\" font-family=\"monospace\" font-size=\"13\">
<rect width=\"100%\" height=\"100%\" fill=\"#ffffff\"/>
<g id=\"r0p-\">
<rect x=\"16\" y=\"16\" width=\"88\" height=\"26\" rx=\"4\" fill=\"#ffffff\" stroke=\"#555555\" stroke-width=\"1\"/>
<text x=\"24\" y=\"34\">NullRoute</text>
</g>
<text x=\"16\" y=\"70\">a&lt;b</text>
</svg>
";

/// Legs by their positions below the root.
fn legs(alloc: Global, numbers: &[usize]) -> Result<Vec<Position>, AllocError> {
    let mut legs = Vec::with_capacity(alloc, numbers.len())?;
    for number in numbers {
        legs.push(Position::at(alloc, &[*number])?)?;
    }
    Ok(legs)
}

fn no_marks(alloc: Global) -> Marks {
    Marks::new(Vec::new(alloc), Vec::new(alloc), Vec::new(alloc), None)
}

/// The picture of the first route.
fn picture_of(
    rt: &impl Abort,
    alloc: Global,
    routes: &Routes,
    marks: &Marks,
) -> Result<Picture, AllocError> {
    let drawing = Drawing {
        number: 0,
        servers: routes.servers(),
        marks,
    };
    let route = routes.route(0).expect(rt, "a route");
    let mut picture = Picture::new(alloc);
    draw(alloc, &mut picture, route, &drawing)?;
    Ok(picture)
}

fn check_graph(rt: &impl Abort, alloc: Global, routes: &Routes) -> Result<(), Fail> {
    let marks = Marks::new(
        legs(alloc, &[0])?,
        legs(alloc, &[1])?,
        legs(alloc, &[0])?,
        Some(Position::at(alloc, &[1])?),
    );
    let picture = picture_of(rt, alloc, routes, &marks)?;
    let text = dot(alloc, &picture)?;
    check_text(rt, text.as_slice(), GRAPH);
    Ok(())
}

#[test]
fn marks_are_drawn(rt: HostRuntime) -> Result<(), Fail> {
    let routes = routes(&rt, rt.alloc(), FAILOVER)?;
    check_graph(&rt, rt.alloc(), &routes)
}

fn check_picture(rt: &impl Abort, alloc: Global, routes: &Routes) -> Result<(), Fail> {
    let picture = picture_of(rt, alloc, routes, &no_marks(alloc))?;
    let mut notes = Vec::with_capacity(alloc, 1)?;
    notes.push(Vec::from_slice(alloc, b"a<b")?)?;
    let text = svg(alloc, &picture, notes.as_slice())?;
    check_text(rt, text.as_slice(), PICTURE);
    Ok(())
}

#[test]
fn markup_in_a_note_is_escaped(rt: HostRuntime) -> Result<(), Fail> {
    let routes = routes(&rt, rt.alloc(), r#"{"route": "NullRoute"}"#)?;
    check_picture(&rt, rt.alloc(), &routes)
}

// ---- wide trees

/// A failover of so many children, NullRoutes all.
fn wide(alloc: Global, children: usize) -> Result<String, AllocError> {
    let mut text = String::from_str(
        alloc,
        r#"{"route": {"type": "FailoverRoute", "children": ["#,
    )?;
    for number in 0..children {
        text.push_str(if number == 0 {
            "\"NullRoute\""
        } else {
            ", \"NullRoute\""
        })?;
    }
    text.push_str("]}}")?;
    Ok(text)
}

/// How many lines of a text begin so.
fn lines_with(text: &[u8], begin: &[u8]) -> usize {
    text.split(|byte| *byte == b'\n')
        .filter(|line| line.starts_with(begin))
        .count()
}

/// Of so many children of one handle, of which one is shown, so many boxes are drawn, and each has its place.
fn check_wide(
    rt: &impl Abort,
    alloc: Global,
    children: usize,
    shown: usize,
    elements: usize,
    boxes: usize,
) -> Result<(), Fail> {
    let routes = routes(rt, alloc, wide(alloc, children)?.as_str())?;
    let marks = Marks::new(
        Vec::new(alloc),
        Vec::new(alloc),
        legs(alloc, &[shown])?,
        None,
    );
    let picture = picture_of(rt, alloc, &routes, &marks)?;
    let text = svg(alloc, &picture, &[])?;
    assert!(rt; lines_with(text.as_slice(), b"<g id=\"r0p") == elements);
    assert!(rt; lines_with(text.as_slice(), b"<rect x=") == boxes);
    Ok(())
}

#[test]
fn wide_trees_are_folded(rt: HostRuntime) -> Result<(), Fail> {
    check_wide(&rt, rt.alloc(), 60, 0, 61, 61)?;
    check_wide(&rt, rt.alloc(), 61, 0, 62, 61)?;
    check_wide(&rt, rt.alloc(), 100, 99, 101, 62)
}
