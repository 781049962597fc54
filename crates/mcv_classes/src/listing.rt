//! The classes of a route of a configuration, by its number.

ghost use Rattle.std.specs.Prelude.{◌<◌, IfOk, IfSome, length, slice_get};
ghost use Rattle.mcv_classes.specs.Class.{IsClassList, IsClassOf};
ghost use Rattle.mcv_classes.specs.Table.{IsWordTable};
ghost use Rattle.mcv_classes.specs.Words.{class_words};

use crate::class::Class;
use crate::table::ClassTable;
use mcv_base::Rest;
use mcv_route::Routes;
use std::alloc::{AllocError, Global};

/// The classes of a route that have members, in the byte order of their words.
pub fn classes(alloc: Global, routes: &Routes, route: usize) -> Result<Vec<Class>, AllocError>
    requires { route < length routes.now.entries }
    ensures { IfSome (slice_get routes.now.entries route) (λ e. IfOk result (λ cs. IsClassList (class_words e.tree) cs.items)) }
{
    let table = table_of(alloc, routes, route)?;
    table.classes(alloc)
}

/// The class of a rest.
pub fn class_of(
    alloc: Global,
    routes: &Routes,
    route: usize,
    rest: &Rest,
) -> Result<Class, AllocError>
    requires { route < length routes.now.entries }
    ensures { IfSome (slice_get routes.now.entries route) (λ e. IfOk result (IsClassOf (class_words e.tree) rest.now)) }
{
    let words = table_of(alloc, routes, route)?;
    words.class_of(alloc, rest)
}

fn table_of(alloc: Global, routes: &Routes, route: usize) -> Result<ClassTable, AllocError>
    requires { route < length routes.now.entries }
    ensures { IfSome (slice_get routes.now.entries route) (λ e. IfOk result (IsWordTable (class_words e.tree))) }
{
    match routes.route(route) {
        Some(route) => ClassTable::new(alloc, route),
        None => unreachable!(),
    }
}
