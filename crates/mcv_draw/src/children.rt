//! The children of a handle that are drawn.

ghost use Rattle.std.specs.Prelude.{◌≡◌, ◌≤◌};
ghost use Rattle.mcv_draw.specs.Children.{drawn_children, last_count, tree_count};
ghost use Rattle.mcv_route.specs.View.{view};

use mcv_route::Route;

/// How many children of a handle are drawn: those of its numbers, but of a warm-up not cold again for the add.
#[tactic(auto, using(crate::proofs::ChildCounts::counted_pool, crate::proofs::ChildCounts::counted_null, crate::proofs::ChildCounts::counted_error, crate::proofs::ChildCounts::counted_many, crate::proofs::ChildCounts::counted_warm_up, crate::proofs::ChildCounts::counted_migrate, crate::proofs::ChildCounts::counted_prefix_selector, crate::proofs::ChildCounts::counted_operation_selector))]
pub(crate) fn child_count(route: &Route) -> usize
    ensures { result ≡ tree_count (drawn_children (view route.now)) }
{
    match route {
        Route::Pool { leaf: _, shadows } => shadows.len(),
        Route::Null => 0,
        Route::Error => 0,
        Route::Many(_, children) => children.len(),
        Route::WarmUp { .. } => 2,
        Route::Migrate { .. } => 2,
        Route::PrefixSelector { policies, wildcard } => policies.len() + last_count(wildcard),
        Route::OperationSelector {
            policies,
            default_policy,
        } => policies.len() + last_count(default_policy),
    }
}

/// How many routes there are after all policies: one, if any.
fn last_count(last: &Option<Box<Route>>) -> usize
    ensures value { result ≡ last_count last.now }
    ensures small { result ≤ 1 }
{
    match last {
        Some(_) => 1,
        None => 0,
    }
}
