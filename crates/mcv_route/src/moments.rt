//! The breaks of routes: the moments at which what their handles send changes.

ghost use Rattle.std.specs.Prelude.{◌≡◌, ◌<◌, ◌≤◌, ◌++◌, drop, length, map, take, IfOk, OnOk};
ghost use Rattle.std.specs.List.{All};
ghost use Rattle.std.specs.List.Sorted.{IsStrictlyIncreasing};
ghost use Rattle.mcv_route.specs.Eras.{breaks, breaks_each, own_breaks, IsBreakTable};
ghost use Rattle.mcv_route.specs.View.{last_view, operation_view, prefix_view, shadow_view, trees_of, view};

use crate::tree::{OperationPolicy, PrefixPolicy, Route, Shadow};
use mcv_base::Moment;
use std::alloc::{AllocError, Global};

/// Adds the breaks of a route.
#[cycle(moments)]
pub fn push_breaks(moments: &mut Vec<u64>, route: &Route) -> Result<(), AllocError>
    ensures { OnOk result (moments.new.items ≡ moments.old.items ++ breaks (view route.now)) }
{
    match route {
        Route::Pool { leaf: _, shadows } => push_shadows(moments, shadows),
        Route::Null => Ok(()),
        Route::Error => Ok(()),
        Route::Many(_, children) => push_children(moments, children),
        Route::WarmUp {
            cold,
            warm,
            exptime: _,
        } => {
            push_breaks(moments, cold)?;
            push_breaks(moments, warm)
        }
        Route::Migrate {
            from,
            to,
            start,
            interval,
        } => {
            push_migration(moments, *start, *interval)?;
            push_breaks(moments, from)?;
            push_breaks(moments, to)
        }
        Route::PrefixSelector { policies, wildcard } => {
            push_prefixes(moments, policies)?;
            push_last(moments, wildcard)
        }
        Route::OperationSelector {
            policies,
            default_policy,
        } => {
            push_policies(moments, policies)?;
            push_last(moments, default_policy)
        }
    }
}

/// Adds the breaks of a migration itself.
fn push_migration(moments: &mut Vec<u64>, start: u32, interval: u32) -> Result<(), AllocError>
    ensures { OnOk result (moments.new.items ≡ moments.old.items ++ own_breaks start interval) }
{
    let (start, interval) = (u64::from(start), u64::from(interval));
    moments.push(start)?;
    moments.push(start + interval)?;
    moments.push(start + 2 * interval)?;
    Ok(())
}

/// Adds those of the children of a handle.
#[cycle(moments)]
fn push_children(moments: &mut Vec<u64>, children: &[Route]) -> Result<(), AllocError>
    ensures { OnOk result (moments.new.items ≡ moments.old.items ++ breaks_each (trees_of (map view children.now))) }
{
    for child in children {
        push_breaks(moments, child)?;
    }
    Ok(())
}

/// Adds those of the targets of shadows.
#[cycle(moments)]
fn push_shadows(moments: &mut Vec<u64>, shadows: &[Shadow]) -> Result<(), AllocError>
    ensures { OnOk result (moments.new.items ≡ moments.old.items ++ breaks_each (trees_of (map (λ s. s.1) (map shadow_view shadows.now)))) }
{
    for shadow in shadows {
        push_breaks(moments, &shadow.target)?;
    }
    Ok(())
}

/// Adds those of the routes of prefixes.
#[cycle(moments)]
fn push_prefixes(moments: &mut Vec<u64>, policies: &[PrefixPolicy]) -> Result<(), AllocError>
    ensures { OnOk result (moments.new.items ≡ moments.old.items ++ breaks_each (trees_of (map (λ p. p.1) (map prefix_view policies.now)))) }
{
    for policy in policies {
        push_breaks(moments, &policy.route)?;
    }
    Ok(())
}

/// Adds those of the routes of operations.
#[cycle(moments)]
fn push_policies(moments: &mut Vec<u64>, policies: &[OperationPolicy]) -> Result<(), AllocError>
    ensures { OnOk result (moments.new.items ≡ moments.old.items ++ breaks_each (trees_of (map (λ p. p.1) (map operation_view policies.now)))) }
{
    for policy in policies {
        push_breaks(moments, &policy.route)?;
    }
    Ok(())
}

/// Adds those of the route after all policies.
#[cycle(moments)]
fn push_last(moments: &mut Vec<u64>, last: &Option<Box<Route>>) -> Result<(), AllocError>
    ensures { OnOk result (moments.new.items ≡ moments.old.items ++ breaks_each (trees_of (last_view last.now))) }
{
    match last {
        None => Ok(()),
        Some(route) => push_breaks(moments, route),
    }
}

/// The table of these breaks: in rising order, each once.
pub fn table_of(alloc: Global, mut moments: Vec<u64>) -> Result<Vec<Moment>, AllocError>
    ensures { IfOk result (λ table. IsBreakTable moments.items (map (λ m. m.0) table.items)) }
{
    moments.sort_unstable();
    moments.dedup();
    Ok(moments_of(alloc, moments.as_slice())?)
}

fn moments_of(alloc: Global, moments: &[u64]) -> Result<Vec<Moment>, AllocError>
    ensures { IfOk result (λ table. map (λ m. m.0) table.items ≡ moments.now) }
{
    let mut table = Vec::with_capacity(alloc, moments.len())?;
    for moment in moments {
        table.push(Moment(*moment))?;
    }
    Ok(table)
}

/// How many breaks of a table are at the moment or before it.
pub fn passed_breaks(table: &[Moment], moment: Moment) -> usize
    requires { IsStrictlyIncreasing (map (λ m. m.0) table.now) }
    ensures bound { result ≤ length table.now }
    ensures first { All (λ b. b ≤ moment.0) (take result (map (λ m. m.0) table.now)) }
    ensures rest { All (λ b. moment.0 < b) (drop result (map (λ m. m.0) table.now)) }
{
    table.partition_point(|at| at.0 <= moment.0)
}
