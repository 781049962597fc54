//! Where the requests for a rest begin.

ghost use Rattle.std.specs.Prelude.{◌≡◌, ◌∷◌, [], IfOk};
ghost use Rattle.mcv_route.specs.View.{view};
ghost use Rattle.mcv_mended.specs.Starts.{StartsAt};

use mcv_base::{Position, Rest};
use mcv_route::Route;
use mcv_rules::prefix_number;
use std::alloc::{AllocError, Global};

/// A handle that all requests for a rest come to, and its place: the root, or the child that it selects by prefix. Who lays
/// out many plans for a rest looks at the prefixes once.
#[derive(Drop)]
pub(crate) struct Start<'a> {
    pub route: &'a Route,
    pub position: Position,
}

/// Where the requests for a rest begin in a route.
pub(crate) fn start_of<'a>(
    alloc: Global,
    route: &'a Route,
    rest: &Rest,
) -> Result<Start<'a>, AllocError>
    ensures { IfOk result (StartsAt (view route.now) rest.now) }
{
    if let Route::PrefixSelector { policies, wildcard } = route {
        let number = prefix_number(policies, rest);
        if number < policies.len() {
            let policy = &policies[number];
            return child_start(alloc, &policy.route, number);
        }
        if let Some(child) = wildcard {
            return child_start(alloc, child, number);
        }
    }
    Ok(Start {
        route,
        position: Position::root(alloc),
    })
}

/// The child of the root with this number.
fn child_start<'a>(alloc: Global, child: &'a Route, number: usize) -> Result<Start<'a>, AllocError>
    ensures { IfOk result (λ start. (start.route.now ≡ child.now) × (start.position ≡ number ∷ [])) }
{
    let root = Position::root(alloc);
    let position = root.child(alloc, number)?;
    Ok(Start {
        route: child,
        position,
    })
}
