//! Whether a rest is in the class of a word. It takes no memory.

ghost use Rattle.std.specs.Prelude.{◌≡◌, ◌↔◌, IsTrue, map};
ghost use Rattle.mcv_classes.specs.Class.{IsClassWord};
ghost use Rattle.mcv_classes.specs.Words.{class_words};
ghost use Rattle.mcv_route.specs.View.{last_view, operation_view, prefix_view, trees_of, view};
ghost use Rattle.mcv_rules.specs.PlanInMemory.{children_of, prefixes_of, targets_of};
ghost use Rattle.mcv_witness.specs.LongestWord.{longer, longest_below, longest_in, longest_of};

use mcv_base::{Rest, begins_with};
use mcv_route::{OperationPolicy, PrefixPolicy, Route, Shadow};

/// Whether the rest is in the class of the word: it is the longest class word with which the rest begins.
pub fn is_class_word(route: &Route, rest: &Rest, word: &[u8]) -> bool
    ensures { IsTrue result ↔ IsClassWord (class_words (view route.now)) rest.now word.now }
{
    if !begins_with(rest.as_bytes(), word) {
        return false;
    }
    word.len() == longest(route, rest, 0)
}

/// The length of the word, where the rest begins with it and it is longer than so much.
fn longer(word: &[u8], rest: &Rest, most: usize) -> usize
    ensures { result ≡ longer most rest.now word.now }
{
    if word.len() <= most {
        return most;
    }
    if begins_with(rest.as_bytes(), word) {
        word.len()
    } else {
        most
    }
}

/// The length of the longest policy prefix with which the rest begins, or so much, if none is longer.
#[cycle(longest)]
fn longest(route: &Route, rest: &Rest, most: usize) -> usize
    ensures { result ≡ longest_in most rest.now (view route.now) }
{
    match route {
        Route::Pool { leaf: _, shadows } => longest_of_shadows(shadows, rest, most),
        Route::Null => most,
        Route::Error => most,
        Route::Many(_, children) => longest_of_children(children, rest, most),
        Route::WarmUp {
            cold,
            warm,
            exptime: _,
        } => {
            let most = longest(cold, rest, most);
            longest(warm, rest, most)
        }
        Route::Migrate {
            from,
            to,
            start: _,
            interval: _,
        } => {
            let most = longest(from, rest, most);
            longest(to, rest, most)
        }
        Route::PrefixSelector { policies, wildcard } => {
            let own = longest_prefix(policies, rest, most);
            let selected = longest_of_selected(policies, rest, own);
            longest_of_last(wildcard, rest, selected)
        }
        Route::OperationSelector {
            policies,
            default_policy,
        } => {
            let selected = longest_of_policies(policies, rest, most);
            longest_of_last(default_policy, rest, selected)
        }
    }
}

/// Of a selector's own prefixes.
fn longest_prefix(policies: &[PrefixPolicy], rest: &Rest, before: usize) -> usize
    ensures { result ≡ longest_of before rest.now (prefixes_of policies.now) }
{
    let mut most = before;
    for policy in policies {
        most = longer(policy.prefix.as_slice(), rest, most);
    }
    most
}

/// Below the routes of prefixes.
#[cycle(longest)]
fn longest_of_selected(policies: &[PrefixPolicy], rest: &Rest, before: usize) -> usize
    ensures { result ≡ longest_below before rest.now (trees_of (map (λ p. p.1) (map prefix_view policies.now))) }
{
    let mut most = before;
    for policy in policies {
        most = longest(&policy.route, rest, most);
    }
    most
}

/// Below the routes of operations.
#[cycle(longest)]
fn longest_of_policies(policies: &[OperationPolicy], rest: &Rest, before: usize) -> usize
    ensures { result ≡ longest_below before rest.now (trees_of (map (λ p. p.1) (map operation_view policies.now))) }
{
    let mut most = before;
    for policy in policies {
        most = longest(&policy.route, rest, most);
    }
    most
}

/// Below the route after all policies.
#[cycle(longest)]
fn longest_of_last(last: &Option<Box<Route>>, rest: &Rest, most: usize) -> usize
    ensures { result ≡ longest_below most rest.now (trees_of (last_view last.now)) }
{
    match last {
        None => most,
        Some(route) => longest(route, rest, most),
    }
}

/// Below the targets of shadows.
#[cycle(longest)]
fn longest_of_shadows(shadows: &[Shadow], rest: &Rest, before: usize) -> usize
    ensures { result ≡ longest_below before rest.now (targets_of shadows.now) }
{
    let mut most = before;
    for shadow in shadows {
        most = longest(&shadow.target, rest, most);
    }
    most
}

/// Below the children of a handle.
#[cycle(longest)]
fn longest_of_children(children: &[Route], rest: &Rest, before: usize) -> usize
    ensures { result ≡ longest_below before rest.now (children_of children.now) }
{
    let mut most = before;
    for child in children {
        most = longest(child, rest, most);
    }
    most
}
