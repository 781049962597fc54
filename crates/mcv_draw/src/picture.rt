//! A picture: the elements that are drawn so far.

ghost use Rattle.std.specs.Prelude.{◌≡◌, map};
ghost use Rattle.mcv_draw.specs.Element.{element_of, rows_of};

use crate::element::Element;
use std::alloc::{AllocError, Global};

/// What is drawn of routes, one below the other. Clauses see the list of its elements (`elements_of`).
#[derive(Drop)]
pub struct Picture {
    pub(crate) elements: Vec<Element>,
    /// How many rows they take.
    pub(crate) rows: usize,
    pub(crate) ghost counted: { rows ≡ rows_of (map element_of elements.items) },
}

impl Picture {
    ghost use Rattle.std.specs.Prelude.{[], ◌∷◌, ◌++◌, OnOk};
    ghost use Rattle.mcv_draw.specs.Walk.{elements_of};

    /// A picture of no route.
    pub fn new(alloc: Global) -> Self
        ensures { elements_of result ≡ [] }
    {
        Picture {
            elements: Vec::new(alloc),
            rows: 0,
        }
    }

    /// Adds an element.
    pub(crate) fn push(&mut self, element: Element) -> Result<(), AllocError>
        ensures { OnOk result (elements_of self.new ≡ elements_of self.old ++ element_of element ∷ []) }
    {
        let has_row = element.row.is_some();
        self.elements.push(element)?;
        if has_row {
            self.rows += 1;
        }
        Ok(())
    }
}
