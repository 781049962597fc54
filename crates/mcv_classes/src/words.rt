//! The policy prefixes of a route.

ghost use Rattle.std.specs.Prelude.{◌≡◌, ◌++◌, map, OnOk};
ghost use Rattle.mcv_classes.specs.Table.{bytes_of};
ghost use Rattle.mcv_classes.specs.Words.{prefixes_below, prefixes_in};
ghost use Rattle.mcv_route.specs.View.{last_view, operation_view, prefix_view, shadow_view, trees_of, view};

use mcv_route::{OperationPolicy, PrefixPolicy, Route, Shadow};
use std::alloc::{AllocError, Global};

/// Adds the policy prefixes of the selectors of a route.
#[cycle(words)]
pub fn push_words(alloc: Global, route: &Route, words: &mut Vec<Vec<u8>>) -> Result<(), AllocError>
    ensures { OnOk result (bytes_of words.new.items ≡ bytes_of words.old.items ++ prefixes_in (view route.now)) }
{
    match route {
        Route::Pool { leaf: _, shadows } => push_shadows(alloc, shadows, words),
        Route::Null => Ok(()),
        Route::Error => Ok(()),
        Route::Many(_, children) => push_children(alloc, children, words),
        Route::WarmUp {
            cold,
            warm,
            exptime: _,
        } => {
            push_words(alloc, cold, words)?;
            push_words(alloc, warm, words)
        }
        Route::Migrate {
            from,
            to,
            start: _,
            interval: _,
        } => {
            push_words(alloc, from, words)?;
            push_words(alloc, to, words)
        }
        Route::PrefixSelector { policies, wildcard } => {
            push_prefixes(alloc, policies, words)?;
            push_selected(alloc, policies, words)?;
            push_last(alloc, wildcard, words)
        }
        Route::OperationSelector {
            policies,
            default_policy,
        } => {
            push_policies(alloc, policies, words)?;
            push_last(alloc, default_policy, words)
        }
    }
}

/// Adds the prefixes of a selector itself.
fn push_prefixes(
    alloc: Global,
    policies: &[PrefixPolicy],
    words: &mut Vec<Vec<u8>>,
) -> Result<(), AllocError>
    ensures { OnOk result (bytes_of words.new.items ≡ bytes_of words.old.items ++ map (λ p. p.0) (map prefix_view policies.now)) }
{
    for policy in policies {
        words.push(Vec::from_slice(alloc, policy.prefix.as_slice())?)?;
    }
    Ok(())
}

/// Adds those of the routes of prefixes.
#[cycle(words)]
fn push_selected(
    alloc: Global,
    policies: &[PrefixPolicy],
    words: &mut Vec<Vec<u8>>,
) -> Result<(), AllocError>
    ensures { OnOk result (bytes_of words.new.items ≡ bytes_of words.old.items ++ prefixes_below (trees_of (map (λ p. p.1) (map prefix_view policies.now)))) }
{
    for policy in policies {
        push_words(alloc, &policy.route, words)?;
    }
    Ok(())
}

/// Adds those of the children of a handle.
#[cycle(words)]
fn push_children(
    alloc: Global,
    children: &[Route],
    words: &mut Vec<Vec<u8>>,
) -> Result<(), AllocError>
    ensures { OnOk result (bytes_of words.new.items ≡ bytes_of words.old.items ++ prefixes_below (trees_of (map view children.now))) }
{
    for child in children {
        push_words(alloc, child, words)?;
    }
    Ok(())
}

/// Adds those of the targets of shadows.
#[cycle(words)]
fn push_shadows(
    alloc: Global,
    shadows: &[Shadow],
    words: &mut Vec<Vec<u8>>,
) -> Result<(), AllocError>
    ensures { OnOk result (bytes_of words.new.items ≡ bytes_of words.old.items ++ prefixes_below (trees_of (map (λ s. s.1) (map shadow_view shadows.now)))) }
{
    for shadow in shadows {
        push_words(alloc, &shadow.target, words)?;
    }
    Ok(())
}

/// Adds those of the routes of operations.
#[cycle(words)]
fn push_policies(
    alloc: Global,
    policies: &[OperationPolicy],
    words: &mut Vec<Vec<u8>>,
) -> Result<(), AllocError>
    ensures { OnOk result (bytes_of words.new.items ≡ bytes_of words.old.items ++ prefixes_below (trees_of (map (λ p. p.1) (map operation_view policies.now)))) }
{
    for policy in policies {
        push_words(alloc, &policy.route, words)?;
    }
    Ok(())
}

/// Adds those of the route after all policies.
#[cycle(words)]
fn push_last(
    alloc: Global,
    last: &Option<Box<Route>>,
    words: &mut Vec<Vec<u8>>,
) -> Result<(), AllocError>
    ensures { OnOk result (bytes_of words.new.items ≡ bytes_of words.old.items ++ prefixes_below (trees_of (last_view last.now))) }
{
    match last {
        None => Ok(()),
        Some(route) => push_words(alloc, route, words),
    }
}
