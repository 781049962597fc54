//! The WarmUpRoute that sends an add.

ghost use Rattle.std.specs.Prelude.{◌≡◌, option_map};
ghost use Rattle.mcv_route.specs.View.{view};
ghost use Rattle.mcv_asks.specs.WarmUps.{adding_at, warm_up_of, warming};

use mcv_route::{Route, child_of};

/// The WarmUpRoute that sends an add.
#[derive(Clone, Copy)]
pub struct WarmUp<'a> {
    /// How many steps of the add's position lead to it.
    pub depth: usize,
    pub warm: &'a Route,
    /// Of the add, in seconds.
    pub exptime: u32,
}

/// The WarmUpRoute of the route that sends the add at this position; None where no add is sent from there.
pub fn warm_up_of<'a>(route: &'a Route, position: &[usize]) -> Option<WarmUp<'a>>
    ensures { option_map warming result ≡ warm_up_of (view route.now) position.now }
{
    let mut handle = route;
    for (depth, step) in position.iter().enumerate() {
        if let Some(found) = adding(handle, depth, *step) {
            return Some(found);
        }
        match child_of(handle, *step) {
            Some(child) => {
                handle = child;
            }
            None => return None,
        }
    }
    None
}

/// The handle, if it is a WarmUpRoute whose child with this number is the one that it adds to.
fn adding(handle: &Route, depth: usize, step: usize) -> Option<WarmUp<'_>>
    ensures { option_map warming result ≡ adding_at depth step (view handle.now) }
{
    match handle {
        Route::WarmUp {
            cold: _,
            warm,
            exptime,
        } => {
            if step == 2 {
                Some(WarmUp {
                    depth,
                    warm,
                    exptime: *exptime,
                })
            } else {
                None
            }
        }
        Route::Pool {
            leaf: _,
            shadows: _,
        } => None,
        Route::Null => None,
        Route::Error => None,
        Route::Many(_, _) => None,
        Route::Migrate {
            from: _,
            to: _,
            start: _,
            interval: _,
        } => None,
        Route::PrefixSelector {
            policies: _,
            wildcard: _,
        } => None,
        Route::OperationSelector {
            policies: _,
            default_policy: _,
        } => None,
    }
}
