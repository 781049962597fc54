//! Legs among those of a block, which rise by position.

ghost use Rattle.std.specs.Option.{option_map};
ghost use Rattle.std.specs.Prelude.{◌≡◌, ◌<◌, length, slice_index_or, Some, None, MatchOption, MatchResult};
ghost use Rattle.mcv_judge.specs.Faults.{AreLegsRising};
ghost use Rattle.mcv_judge.specs.PairsInMemory.{leg_of, legs_of};
ghost use Rattle.mcv_cert.specs.Pair.{list_cmp};
ghost use Rattle.mcv_judge.specs.Reason.{leg_at, server_at, is_same_server, is_same_list};

use crate::block::Leg;
use mcv_base::{Position, ServerId};
use std::cmp::Ordering;

/// How a leg compares with a position.
fn by_position(leg: &Leg, position: &Position) -> Ordering
    ensures { result ≡ list_cmp leg.now.position.now position.now }
{
    leg.position.steps().cmp(position.steps())
}

/// The number of the leg at a position, or where one would be.
fn search<'a>(legs: &'a [Leg<'a>], position: &Position) -> Result<usize, usize>
    requires { AreLegsRising (legs_of legs.now) }
    ensures { MatchResult result (λ i. (i < length legs.now) × ((d : Leg) → leg_at (legs_of legs.now) position.now ≡ Some (leg_of (slice_index_or legs.now i d)))) (λ _. leg_at (legs_of legs.now) position.now ≡ None) }
{
    legs.binary_search_by(|leg| by_position(leg, position))
}

/// The leg at a position.
pub fn find_leg<'a>(legs: &'a [Leg<'a>], position: &Position) -> Option<&'a Leg<'a>>
    requires { AreLegsRising (legs_of legs.now) }
    ensures { MatchOption result (leg_at (legs_of legs.now) position.now ≡ None) (λ l. leg_at (legs_of legs.now) position.now ≡ Some (leg_of l.now)) }
{
    match search(legs, position) {
        Ok(index) => Some(&legs[index]),
        Err(_) => None,
    }
}

/// The server of a leg at an index.
#[tactic(auto, using(crate::proofs::Servers::server_of))]
pub fn server_at(leg: &Leg, index: usize) -> Option<ServerId>
    ensures { option_map (λ s. s.0) result ≡ server_at (leg_of leg.now) index }
{
    leg.servers.get(index).copied()
}

/// Whether both are there, and equal.
pub fn is_same_server(first: Option<ServerId>, second: Option<ServerId>) -> bool
    ensures { result ≡ is_same_server (option_map (λ s. s.0) first) (option_map (λ s. s.0) second) }
{
    match (first, second) {
        (Some(one), Some(other)) => one.0 == other.0,
        _ => false,
    }
}

/// Whether the two have the same servers, index by index.
#[tactic(auto, using(crate::proofs::Servers::by_numbers))]
pub fn have_same_servers(leg: &Leg, other: &Leg) -> bool
    ensures { result ≡ is_same_list (leg_of leg.now).servers (leg_of other.now).servers }
{
    leg.servers.cmp(other.servers).is_eq()
}
