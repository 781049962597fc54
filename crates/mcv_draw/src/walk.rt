//! The walk through a route's tree, handle by handle.

ghost use Rattle.std.specs.Prelude.{◌≡◌, ◌++◌, ◌∷◌, [], ◌&&◌, ◌||◌, IfOk, OnOk, if◌then◌else◌, map, nat_le, not};
ghost use Rattle.mcv_draw.specs.Drawn.{branch_to, drawn, element, is_folded_at, top};
ghost use Rattle.mcv_draw.specs.Element.{element_of, rows_of};
ghost use Rattle.mcv_draw.specs.Marks.{marks_of};
ghost use Rattle.mcv_draw.specs.Walk.{branch_of, children_back, drawing_of, elements_of, handle_of};
ghost use Rattle.mcv_route.specs.View.{view};

use crate::children::child_count;
use crate::edge::word_of;
use crate::element::Element;
use crate::label::{CHILDREN_DRAWN, label_of};
use crate::marks::Marks;
use crate::picture::Picture;
use mcv_base::Position;
use mcv_pools::Servers;
use mcv_route::{Route, child_of};
use std::alloc::{AllocError, Global};

/// What is drawn of a route beside its tree.
#[derive(Clone, Copy)]
pub struct Drawing<'a> {
    /// The number of the route.
    pub number: usize,
    pub servers: &'a Servers,
    pub marks: &'a Marks,
}

/// How a handle hangs below another one.
#[derive(Drop)]
struct Branch {
    position: Position,
    /// The row of the handle above it; 0 at the top.
    above: usize,
    word: Vec<u8>,
    is_folded: bool,
}

/// A handle that is still to be drawn.
#[derive(Drop)]
struct Pending<'a> {
    route: &'a Route,
    branch: Branch,
}

/// Adds a route to a picture, below what is there. On an error part of it may be there.
pub fn draw(
    alloc: Global,
    picture: &mut Picture,
    route: &Route,
    drawing: &Drawing<'_>,
) -> Result<(), AllocError>
    ensures { OnOk result (elements_of picture.new
        ≡ elements_of picture.old ++ drawn (drawing_of drawing.now) top (rows_of (elements_of picture.old)) (view route.now)) }
{
    let mut pending = Vec::new(alloc);
    let branch = top(alloc);
    pending.push(Pending { route, branch })?;
    while let Some(next) = pending.pop() {
        draw_next(alloc, picture, next, drawing, &mut pending)?;
    }
    Ok(())
}

fn top(alloc: Global) -> Branch
    ensures { branch_of result ≡ top }
{
    Branch {
        position: Position::root(alloc),
        above: 0,
        word: Vec::new(alloc),
        is_folded: false,
    }
}

/// Adds the element of a handle, and its children to what is still to be drawn, the first one behind the others.
fn draw_next<'a>(
    alloc: Global,
    picture: &mut Picture,
    next: Pending<'a>,
    drawing: &Drawing<'_>,
    pending: &mut Vec<Pending<'a>>,
) -> Result<(), AllocError>
    ensures element { OnOk result (elements_of picture.new
        ≡ elements_of picture.old ++ element (drawing_of drawing.now) (branch_of next.entry.branch) (rows_of (elements_of picture.old)) (view next.entry.route.now) ∷ []) }
    ensures pending { OnOk result (map handle_of pending.new.items
        ≡ map handle_of pending.old.items
        ++ children_back (marks_of drawing.now.marks.now) (branch_of next.entry.branch) (rows_of (elements_of picture.old)) (view next.entry.route.now)) }
{
    let row = picture.rows;
    push_children(alloc, &next, row, drawing.marks, pending)?;
    let element = drawn_element(alloc, next, row, drawing)?;
    picture.push(element)
}

/// Adds the children of a handle in a row, the last one first: the next one that is taken is the first.
fn push_children<'a>(
    alloc: Global,
    parent: &Pending<'a>,
    row: usize,
    marks: &Marks,
    pending: &mut Vec<Pending<'a>>,
) -> Result<(), AllocError>
    ensures { OnOk result (map handle_of pending.new.items
        ≡ map handle_of pending.old.items ++ children_back (marks_of marks.now) (branch_of parent.now.branch) row (view parent.now.route.now)) }
{
    let mut number = child_count(parent.route);
    while number > 0 {
        number -= 1;
        // Each number below the count has a child.
        let Some(route) = child_of(parent.route, number) else {
            return Ok(());
        };
        let branch = branch_to(alloc, parent, number, row, marks)?;
        pending.push(Pending { route, branch })?;
    }
    Ok(())
}

/// How the child of a number hangs below a handle in a row.
fn branch_to(
    alloc: Global,
    parent: &Pending<'_>,
    number: usize,
    row: usize,
    marks: &Marks,
) -> Result<Branch, AllocError>
    ensures { IfOk result (λ branch. branch_of branch ≡ branch_to (marks_of marks.now) (branch_of parent.now.branch) row (view parent.now.route.now) number) }
{
    let position = parent.branch.position.child(alloc, number)?;
    let word = word_of(alloc, parent.route, number)?;
    let is_folded = is_folded(&parent.branch, &position, number, marks);
    Ok(Branch {
        position,
        above: row,
        word,
        is_folded,
    })
}

/// Whether the child of a number, at this position, is folded away.
fn is_folded(parent: &Branch, position: &Position, number: usize, marks: &Marks) -> bool
    requires { position.now ≡ parent.now.position ++ number ∷ [] }
    ensures { result ≡ is_folded_at (marks_of marks.now) (branch_of parent.now) number }
{
    folds(parent.is_folded, number, marks.shows(position))
}

/// Whether the child of a number is folded away: what is below one that is, and behind the first 60 what isn't shown.
fn folds(is_folded: bool, number: usize, is_shown: bool) -> bool
    ensures { result ≡ (is_folded || (nat_le 60 number && not is_shown)) }
{
    is_folded || (number >= CHILDREN_DRAWN && !is_shown)
}

/// The row of a handle, where this one is free.
fn row_of(is_folded: bool, row: usize) -> Option<usize>
    ensures { result ≡ (if is_folded then None else Some row) }
{
    if is_folded { None } else { Some(row) }
}

/// The element of a handle, where this row is free.
fn drawn_element(
    alloc: Global,
    next: Pending<'_>,
    row: usize,
    drawing: &Drawing<'_>,
) -> Result<Element, AllocError>
    ensures { IfOk result (λ e. element_of e ≡ element (drawing_of drawing.now) (branch_of next.entry.branch) row (view next.entry.route.now)) }
{
    let label = label_of(alloc, next.route, drawing.servers)?;
    let marked = drawing.marks.at(&next.branch.position);
    let Pending { route: _, branch } = next;
    let Branch {
        position,
        above,
        word,
        is_folded,
    } = branch;
    let row = row_of(is_folded, row);
    Ok(Element {
        route: drawing.number,
        position,
        row,
        above,
        word,
        label,
        marked,
    })
}
