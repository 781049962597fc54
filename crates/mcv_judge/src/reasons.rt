//! What is wrong with the reason of a pair. The definition: `fault_of` of specs/Reason.antt.

ghost use Rattle.std.specs.Option.{option_map};
ghost use Rattle.std.specs.Prelude.{◌≡◌};
ghost use Rattle.mcv_judge.specs.Faults.{AreLegsRising};
ghost use Rattle.mcv_judge.specs.PairsInMemory.{block_of, leg_of, legs_of};
ghost use Rattle.mcv_cert.specs.Pair.{reason_of};
ghost use Rattle.mcv_judge.specs.Reason.{fault_of, fill_a_symbol, has_server, have_server, is_one_missing, is_whole, unless};
ghost use Rattle.mcv_judge.specs.Walk.{fault_in};

use crate::block::{Block, Leg};
use crate::fault::PairFault;
use crate::looking::{find_leg, have_same_servers, is_same_server, server_at};
use mcv_base::{Position, ServerId};
use mcv_cert::Reason;

/// Whether the reason speaks of all indexes of the leaf.
pub fn is_whole(reason: &Reason) -> bool
    ensures { result ≡ is_whole (reason_of reason.now) }
{
    matches!(reason, Reason::Never | Reason::Twin(_))
}

/// Whether no leg is at one of the positions.
fn is_one_missing<'a>(legs: &'a [Leg<'a>], positions: &[Position]) -> bool
    requires { AreLegsRising (legs_of legs.now) }
    ensures { result ≡ is_one_missing (legs_of legs.now) positions.now }
{
    for position in positions {
        if find_leg(legs, position).is_none() {
            return true;
        }
    }
    false
}

/// Whether the leg has the symbol, and the server at the index.
fn has_server(leg: &Leg, symbol: usize, server: Option<ServerId>, index: usize) -> bool
    ensures { result ≡ has_server symbol (option_map (λ s. s.0) server) index (leg_of leg.now) }
{
    leg.symbol == symbol && is_same_server(server_at(leg, index), server)
}

/// Whether the legs have the symbol and the server, each at its own index.
fn have_server<'a>(
    legs: &'a [Leg<'a>],
    symbol: usize,
    server: Option<ServerId>,
    positions: &[Position],
) -> bool
    requires { AreLegsRising (legs_of legs.now) }
    ensures { result ≡ have_server (legs_of legs.now) symbol (option_map (λ s. s.0) server) 0 positions.now }
{
    for (index, position) in positions.iter().enumerate() {
        let Some(leg) = find_leg(legs, position) else {
            return false;
        };
        if !has_server(leg, symbol, server, index) {
            return false;
        }
    }
    true
}

/// Whether the legs have one symbol, are as many as it has indexes, and have the server, each at its own index.
#[tactic(auto, using(crate::proofs::Servers::servers_counted))]
fn fill_a_symbol<'a>(legs: &'a [Leg<'a>], server: Option<ServerId>, positions: &[Position]) -> bool
    requires { AreLegsRising (legs_of legs.now) }
    ensures { result ≡ fill_a_symbol (legs_of legs.now) (option_map (λ s. s.0) server) positions.now }
{
    let Some((first, _)) = positions.split_first() else {
        return false;
    };
    let Some(leg) = find_leg(legs, first) else {
        return false;
    };
    positions.len() == leg.servers.len() && have_server(legs, leg.symbol, server, positions)
}

/// Nothing where it is so, else the fault.
pub fn unless(fine: bool, fault: PairFault) -> Result<(), PairFault>
    ensures { fault_in result ≡ unless fine fault }
{
    if fine { Ok(()) } else { Err(fault) }
}

/// What is wrong with a reason for a readable leaf of the block.
pub fn judge_reason(block: &Block, leaf: &Leg, reason: &Reason) -> Result<(), PairFault>
    requires { AreLegsRising (legs_of block.now.acknowledged.now) }
    ensures { fault_in result ≡ fault_of (block_of block.now) (leg_of leaf.now) (reason_of reason.now) }
{
    let legs = block.acknowledged;
    match reason {
        Reason::Never => unless(!block.can_be_acknowledged, PairFault::CanBeAcknowledged),
        Reason::Twin(position) => {
            let Some(leg) = find_leg(legs, position) else {
                return Err(PairFault::NotAcknowledged);
            };
            let is_twin = leg.symbol == leaf.symbol && have_same_servers(leg, leaf);
            unless(is_twin, PairFault::OtherServer)
        }
        Reason::Same(index, position) => {
            let Some(leg) = find_leg(legs, position) else {
                return Err(PairFault::NotAcknowledged);
            };
            let server = server_at(leaf, *index);
            unless(
                has_server(leg, leaf.symbol, server, *index),
                PairFault::OtherServer,
            )
        }
        Reason::All(index, positions) => {
            if is_one_missing(legs, positions) {
                return Err(PairFault::NotAcknowledged);
            }
            let server = server_at(leaf, *index);
            unless(
                fill_a_symbol(legs, server, positions),
                PairFault::OtherServer,
            )
        }
    }
}
