//! What a selector's policies make of their names.

ghost use Rattle.std.specs.Prelude.{◌≡◌, IfOk, map, option_map};
ghost use Rattle.mcv_config.specs.ConfigValue.{named_of, policy_of, prefix_of};
ghost use Rattle.mcv_config.specs.Selectors.{of_operation, selecting};

use crate::config::{NamedPolicy, NamedPrefix, NamedRoute};
use mcv_names::{Selector, op_named};
use std::alloc::{AllocError, Global};

/// A selector with these policies, and the route for all else.
pub(crate) fn selecting(
    alloc: Global,
    selector: Selector,
    policies: Vec<NamedPrefix>,
    default: Option<Box<NamedRoute>>,
) -> Result<NamedRoute, AllocError>
    ensures { IfOk result (λ r. named_of r ≡ selecting selector (map prefix_of policies.items) (option_map (λ b. named_of b.value) default)) }
{
    match selector {
        Selector::Prefix => Ok(NamedRoute::PrefixSelector {
            policies,
            wildcard: default,
        }),
        Selector::Operation => Ok(NamedRoute::OperationSelector {
            policies: by_operation(alloc, policies)?,
            default_policy: default,
        }),
    }
}

fn by_operation(alloc: Global, policies: Vec<NamedPrefix>) -> Result<Vec<NamedPolicy>, AllocError>
    ensures { IfOk result (λ v. map policy_of v.items ≡ map of_operation (map prefix_of policies.items)) }
{
    let mut named = Vec::with_capacity(alloc, policies.len())?;
    for policy in policies {
        named.push(of_operation(policy))?;
    }
    Ok(named)
}

fn of_operation(policy: NamedPrefix) -> NamedPolicy
    ensures { policy_of result ≡ of_operation (prefix_of policy) }
{
    let NamedPrefix { prefix, route } = policy;
    let op = op_named(prefix.as_slice());
    NamedPolicy { op, route }
}
