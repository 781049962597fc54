//! The acknowledged legs of a block, in tables.

ghost use Rattle.std.specs.Option.{option_map};
ghost use Rattle.std.specs.Prelude.{◌≡◌, IfOk, is_some, map};
ghost use Rattle.mcv_judge.specs.PairsInMemory.{leg_of, legs_of, numbers};
ghost use Rattle.mcv_picks.specs.Picks.{borrowed, each_with, filling, first_twin, first_with};
ghost use Rattle.mcv_picks.specs.Tables.{FindTheSame};

use crate::classes::classes;
use crate::slots::slots;
use mcv_base::ServerId;
use mcv_judge::Leg;
use std::alloc::{AllocError, Global};
use std::collections::BTreeMap;
use std::marker::Model;

/// Legs by what they send to. Clauses see the list of them.
#[derive(Drop)]
pub struct Tables<'a> {
    legs: &'a [Leg<'a>],
    /// By symbol and servers the first leg.
    by_class: BTreeMap<(usize, &'a [ServerId]), &'a Leg<'a>>,
    /// By symbol, index and the server there the first leg.
    by_slot: BTreeMap<(usize, usize, u32), &'a Leg<'a>>,
}

impl<'a> Model for Tables<'a> {
    ghost use Rattle.std.specs.Prelude.{List};
    ghost use Rattle.mcv_judge.specs.PairsInMemory.{legs_of};
    ghost use Rattle.mcv_judge.specs.Reason.{LegValue};
    ghost use Rattle.mcv_picks.specs.Tables.{IsByTwinKey, IsBySlot};

    ghost Value = { List LegValue };

    ghost view = { λ t. legs_of t.legs.now };

    ghost invariant = { λ t. IsByTwinKey t.by_class (legs_of t.legs.now) × IsBySlot t.by_slot (legs_of t.legs.now) };
}

impl<'a> Tables<'a> {
    /// The tables, and the first legs of all classes of twins.
    pub fn new(alloc: Global, legs: &'a [Leg<'a>]) -> Result<(Self, Vec<&'a Leg<'a>>), AllocError>
        ensures legs { IfOk result (λ r. r.0 ≡ legs_of legs.now) }
        ensures firsts { IfOk result (λ r. FindTheSame (map borrowed r.1.items) (legs_of legs.now)) }
    {
        let (by_class, firsts) = classes(alloc, legs)?;
        let by_slot = slots(alloc, firsts.as_slice())?;
        let tables = Tables {
            legs,
            by_class,
            by_slot,
        };
        Ok((tables, firsts))
    }

    /// The first twin of a leaf.
    pub fn twin(&self, leaf: &Leg<'a>) -> Option<&'a Leg<'a>>
        ensures { option_map borrowed result ≡ first_twin self.now (leg_of leaf.now) }
    {
        self.by_class.get(&(leaf.symbol, leaf.servers)).copied()
    }

    /// The first leg of the symbol that has the server at the index.
    pub fn with(&self, symbol: usize, server: ServerId, index: usize) -> Option<&'a Leg<'a>>
        ensures { option_map borrowed result ≡ first_with self.now symbol server.0 index }
    {
        self.by_slot.get(&(symbol, index, server.0)).copied()
    }

    /// Whether the symbol has for each index a leg with the server there.
    pub fn fills(&self, symbol: usize, server: ServerId) -> bool
        ensures { result ≡ is_some (filling self.now symbol server.0) }
    {
        match self.with(symbol, server, 0) {
            Some(first) => is_each_there(self, symbol, server, first.servers),
            None => false,
        }
    }

    /// For each index of the symbol the first leg that has the server there, or None where an index has none.
    pub fn filling(
        &self,
        alloc: Global,
        symbol: usize,
        server: ServerId,
    ) -> Result<Option<Vec<&'a Leg<'a>>>, AllocError>
        ensures { IfOk result (λ o. option_map (λ v. map borrowed v.items) o ≡ filling self.now symbol server.0) }
    {
        match self.with(symbol, server, 0) {
            Some(first) => each_with(alloc, self, symbol, server, first.servers),
            None => Ok(None),
        }
    }
}

/// Whether each index of the servers has a leg of the symbol with the server there.
fn is_each_there(tables: &Tables, symbol: usize, server: ServerId, servers: &[ServerId]) -> bool
    ensures { result ≡ is_some (each_with tables.now symbol server.0 0 (numbers servers.now)) }
{
    for (index, _) in servers.iter().enumerate() {
        if tables.with(symbol, server, index).is_none() {
            return false;
        }
    }
    true
}

/// For each index of the servers the first leg of the symbol that has the server there, or None where one has none.
fn each_with<'a>(
    alloc: Global,
    tables: &Tables<'a>,
    symbol: usize,
    server: ServerId,
    servers: &[ServerId],
) -> Result<Option<Vec<&'a Leg<'a>>>, AllocError>
    ensures { IfOk result (λ o. option_map (λ v. map borrowed v.items) o ≡ each_with tables.now symbol server.0 0 (numbers servers.now)) }
{
    let mut legs = Vec::new(alloc);
    for (index, _) in servers.iter().enumerate() {
        match tables.with(symbol, server, index) {
            Some(leg) => legs.push(leg)?,
            None => return Ok(None),
        }
    }
    Ok(Some(legs))
}
