//! What stands on the edge to a child.

ghost use Rattle.std.specs.Prelude.{◌≡◌, ◌==◌, IfOk, codes, if◌then◌else◌, option_map};
ghost use Rattle.mcv_draw.specs.Label.{child_word, op_word, operation_word, prefix_word, shadow_word};
ghost use Rattle.mcv_route.specs.View.{operation_view, prefix_view, shadow_view, view};

use crate::pieces::number_text;
use mcv_base::{Op, push_number};
use mcv_cert::push_escaped;
use mcv_route::{OperationPolicy, PrefixPolicy, Route, Shadow};
use std::alloc::{AllocError, Global};

/// The word of the edge to child `number`.
#[tactic(auto, using(crate::proofs::Labels::worded_null, crate::proofs::Labels::worded_error, crate::proofs::Labels::worded_many, crate::proofs::Labels::worded_warm_up, crate::proofs::Labels::worded_migrate))]
pub(crate) fn word_of(alloc: Global, route: &Route, number: usize) -> Result<Vec<u8>, AllocError>
    ensures { IfOk result (λ word. word.items ≡ child_word (view route.now) number) }
{
    match route {
        Route::Pool { leaf: _, shadows } => shadow_word(alloc, shadows.get(number)),
        Route::Null => number_text(alloc, number),
        Route::Error => number_text(alloc, number),
        Route::Many(_, _) => number_text(alloc, number),
        Route::WarmUp { .. } => warm_up_word(alloc, number),
        Route::Migrate { .. } => migrate_word(alloc, number),
        Route::PrefixSelector { policies, .. } => prefix_word(alloc, policies.get(number)),
        Route::OperationSelector { policies, .. } => operation_word(alloc, policies.get(number)),
    }
}

/// The word of a shadow: the indexes of which it gets copies.
#[tactic(auto, using(crate::proofs::Labels::shadow_first, crate::proofs::Labels::shadow_last))]
fn shadow_word(alloc: Global, shadow: Option<&Shadow>) -> Result<Vec<u8>, AllocError>
    ensures { IfOk result (λ word. word.items ≡ shadow_word (option_map (λ s. (shadow_view s.now).0) shadow.entry)) }
{
    let Some(shadow) = shadow else {
        return Vec::from_slice(alloc, b"shadow");
    };
    let mut word = Vec::from_slice(alloc, b"shadow ")?;
    push_number(&mut word, shadow.first as usize)?;
    word.extend_from_slice(b"-")?;
    push_number(&mut word, shadow.last as usize)?;
    Ok(word)
}

fn warm_up_word(alloc: Global, number: usize) -> Result<Vec<u8>, AllocError>
    ensures { IfOk result (λ word. word.items ≡ (if number == 1 then codes "warm" else codes "cold")) }
{
    if number == 1 {
        return Vec::from_slice(alloc, b"warm");
    }
    Vec::from_slice(alloc, b"cold")
}

fn migrate_word(alloc: Global, number: usize) -> Result<Vec<u8>, AllocError>
    ensures { IfOk result (λ word. word.items ≡ (if number == 0 then codes "from" else codes "to")) }
{
    if number == 0 {
        return Vec::from_slice(alloc, b"from");
    }
    Vec::from_slice(alloc, b"to")
}

/// The word of a policy of a prefix, or that of the route behind all.
#[tactic(auto, using(crate::proofs::Labels::policy_prefix))]
fn prefix_word(alloc: Global, policy: Option<&PrefixPolicy>) -> Result<Vec<u8>, AllocError>
    ensures { IfOk result (λ word. word.items ≡ prefix_word (option_map (λ p. (prefix_view p.now).0) policy.entry)) }
{
    let Some(policy) = policy else {
        return Vec::from_slice(alloc, b"wildcard");
    };
    let mut word = Vec::new(alloc);
    push_escaped(&mut word, policy.prefix.as_slice())?;
    Ok(word)
}

/// The word of a policy of an operation, or that of the route behind all.
#[tactic(auto, using(crate::proofs::Labels::policy_operation))]
fn operation_word(alloc: Global, policy: Option<&OperationPolicy>) -> Result<Vec<u8>, AllocError>
    ensures { IfOk result (λ word. word.items ≡ operation_word (option_map (λ p. (operation_view p.now).0) policy.entry)) }
{
    match policy {
        Some(policy) => Vec::from_slice(alloc, op_word(policy.op)),
        None => Vec::from_slice(alloc, b"default_policy"),
    }
}

/// The word of an operation; a name that no request has isn't kept.
fn op_word(op: Option<Op>) -> &'static [u8]
    ensures { result.now ≡ op_word op }
{
    match op {
        Some(op) => op.name().as_bytes(),
        None => b"(no request)",
    }
}
