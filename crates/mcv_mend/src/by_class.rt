//! Classes by the policies of a selector, and what they need.

use crate::fault::MendFault;
use mcv_base::begins_with;
use mcv_needs::Need;
use mcv_spans::{Located, Member};
use std::alloc::{AllocError, Global};

/// The needs of classes of one route, as they come to a handle.
pub type Classes<'n> = Vec<&'n Need>;

/// Whether one of the classes needs a leg.
pub fn is_any_needed(classes: &[&Need]) -> bool {
    classes.iter().any(|need| !need.legs.is_empty())
}

/// Whether two classes need the same legs.
pub fn is_same_need(one: &Need, other: &Need) -> bool {
    if one.legs.len() != other.legs.len() {
        return false;
    }
    for (number, leg) in one.legs.iter().enumerate() {
        let Some(next) = other.legs.get(number) else {
            return false;
        };
        if leg.symbol != next.symbol || leg.servers.as_slice() != next.servers.as_slice() {
            return false;
        }
    }
    true
}

/// Whether all classes need the same legs.
pub fn are_same_needs(classes: &[&Need]) -> bool {
    match classes.first() {
        Some(first) => classes.iter().all(|need| is_same_need(*first, *need)),
        None => true,
    }
}

/// The number of the longest of the policies' prefixes with which the word begins.
fn policy_of(policies: &[Member], word: &[u8]) -> Option<usize> {
    let mut found: Option<(usize, usize)> = None;
    for (number, policy) in policies.iter().enumerate() {
        let prefix = policy.name.as_bytes();
        let is_longer = match found {
            Some((_, most)) => most <= prefix.len(),
            None => true,
        };
        if is_longer && begins_with(word, prefix) {
            found = Some((number, prefix.len()));
        }
    }
    let (number, _) = found?;
    Some(number)
}

/// The classes that come to a route below a selector by prefix.
#[derive(Drop)]
pub struct Branch<'t, 'n> {
    pub route: &'t Located,
    pub classes: Classes<'n>,
}

/// The routes below a selector by prefix to which classes come, each with these.
pub fn branches<'t, 'n>(
    alloc: Global,
    selector: &'t Located,
    classes: &[&'n Need],
) -> Result<Vec<Branch<'t, 'n>>, MendFault> {
    let policies: &[Member] = match selector.get("policies") {
        Some(policies) => policies.members().ok_or(MendFault::GaveUp)?,
        None => &[],
    };
    let mut branches = Vec::new(alloc);
    for policy in policies {
        branches.push(Branch {
            route: &policy.value,
            classes: Vec::new(alloc),
        })?;
    }
    if let Some(wildcard) = selector.get("wildcard") {
        branches.push(Branch {
            route: wildcard,
            classes: Vec::new(alloc),
        })?;
    }
    for need in classes {
        let number = policy_of(policies, need.class.class.word()).unwrap_or(policies.len());
        if let Some(branch) = branches.get_mut(number) {
            branch.classes.push(*need)?;
        }
    }
    Ok(branches)
}

/// A class whose legs differ from those that it would inherit, or none for all other keys.
#[derive(Drop)]
pub struct Split<'n> {
    /// What all keys need that have no policy; None for nothing.
    pub others: Option<&'n Need>,
    /// The classes that need a policy of their own, in the order of their words.
    pub own: Classes<'n>,
}

/// Which of the classes, in the order of their words, need policies of their own.
pub fn split_by_word<'n>(alloc: Global, classes: &[&'n Need]) -> Result<Split<'n>, AllocError> {
    let others = base_of(classes);
    let mut own: Classes<'n> = Vec::new(alloc);
    let mut above: Classes<'n> = Vec::new(alloc);
    for need in classes {
        let word = need.class.class.word();
        while let Some(last) = above.pop() {
            if begins_with(word, last.class.class.word()) {
                above.push(last)?;
                break;
            }
        }
        if !is_inherited(above.last().copied(), others, *need) {
            own.push(*need)?;
        }
        above.push(*need)?;
    }
    Ok(Split { others, own })
}

/// Whether a class needs what the one above it does, or where none is above it what all others do.
fn is_inherited(above: Option<&Need>, others: Option<&Need>, need: &Need) -> bool {
    match above {
        Some(inherited) => is_same_need(inherited, need),
        None => match others {
            Some(inherited) => is_same_need(inherited, need),
            None => need.legs.is_empty(),
        },
    }
}

/// The first class, where the words of all others begin with its word.
fn base_of<'n>(classes: &[&'n Need]) -> Option<&'n Need> {
    let first = classes.first()?;
    let word = first.class.class.word();
    if classes
        .iter()
        .all(|need| begins_with(need.class.class.word(), word))
    {
        Some(*first)
    } else {
        None
    }
}
