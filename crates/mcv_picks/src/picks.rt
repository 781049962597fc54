//! Which legs a certificate names for a readable leaf.

ghost use Rattle.std.specs.Option.{option_map};
ghost use Rattle.std.specs.Prelude.{◌≡◌, IfOk, map};
ghost use Rattle.mcv_judge.specs.PairsInMemory.{leg_of, legs_of};
ghost use Rattle.mcv_cert.specs.Pair.{reason_of};
ghost use Rattle.mcv_picks.specs.Reasons.{IsReasonAt, whole_reason};
ghost use Rattle.mcv_picks.specs.Picks.{IsFirstFilling, borrowed, first_twin, first_with};

use crate::least::least_symbols;
use crate::tables::Tables;
use mcv_base::{Position, ServerId};
use mcv_cert::Reason;
use mcv_judge::Leg;
use std::alloc::{AllocError, Global};
use std::collections::BTreeMap;
use std::marker::Model;

/// The acknowledged legs of a block, by what a reason asks of them. Clauses see the list of them.
#[derive(Drop)]
pub struct Picks<'a> {
    tables: Tables<'a>,
    /// By server the symbol with the least number that has it at all indexes.
    by_server: BTreeMap<u32, usize>,
}

impl<'a> Model for Picks<'a> {
    ghost use Rattle.std.specs.Prelude.{List};
    ghost use Rattle.mcv_judge.specs.Reason.{LegValue};
    ghost use Rattle.mcv_picks.specs.Tables.{IsByServer};

    ghost Value = { List LegValue };

    ghost view = { λ p. p.tables };

    ghost invariant = { λ p. IsByServer p.by_server p.tables };
}

impl<'a> Picks<'a> {
    /// The legs in tables. Takes time and memory in proportion to the servers of legs of which none is a twin of another.
    pub fn new(alloc: Global, legs: &'a [Leg<'a>]) -> Result<Self, AllocError>
        ensures { IfOk result (λ p. p ≡ legs_of legs.now) }
    {
        let (tables, firsts) = Tables::new(alloc, legs)?;
        let by_server = least_symbols(alloc, &tables, firsts.as_slice())?;
        Ok(Picks { tables, by_server })
    }

    /// The first leg with the leaf's symbol and servers.
    pub fn twin(&self, leaf: &Leg<'a>) -> Option<&'a Leg<'a>>
        ensures { option_map borrowed result ≡ first_twin self.now (leg_of leaf.now) }
    {
        self.tables.twin(leaf)
    }

    /// The first leg of the symbol that has the server at the index.
    pub fn same(&self, symbol: usize, server: ServerId, index: usize) -> Option<&'a Leg<'a>>
        ensures { option_map borrowed result ≡ first_with self.now symbol server.0 index }
    {
        self.tables.with(symbol, server, index)
    }

    /// A leg for each index of one symbol, with the server there: the first ones, of the symbol with the least number.
    /// None where no symbol has one for each index.
    pub fn all(
        &self,
        alloc: Global,
        server: ServerId,
    ) -> Result<Option<Vec<&'a Leg<'a>>>, AllocError>
        ensures { IfOk result (λ o. IsFirstFilling self.now server.0 (option_map (λ v. map borrowed v.items) o)) }
    {
        let Some(symbol) = self.by_server.get(&server.0) else {
            return Ok(None);
        };
        self.tables.filling(alloc, *symbol, server)
    }

    /// The reason for all indexes of a leaf, if there is one: no delete can be acknowledged, or the leaf has a twin.
    pub fn whole_reason(
        &self,
        alloc: Global,
        can_be_acknowledged: bool,
        leaf: &Leg<'a>,
    ) -> Result<Option<Reason>, AllocError>
        ensures { IfOk result (λ r. option_map reason_of r ≡ whole_reason can_be_acknowledged self.now (leg_of leaf.now)) }
    {
        if !can_be_acknowledged {
            return Ok(Some(Reason::Never));
        }
        match self.twin(leaf) {
            Some(leg) => Ok(Some(Reason::Twin(leg.position.copy(alloc)?))),
            None => Ok(None),
        }
    }

    /// The reason at an index where the leaf has the server, if there is one: one leg has it there, or those of one
    /// symbol have it at all their indexes.
    pub fn reason_at(
        &self,
        alloc: Global,
        leaf: &Leg<'a>,
        index: usize,
        server: ServerId,
    ) -> Result<Option<Reason>, AllocError>
        ensures { IfOk result (λ r. IsReasonAt self.now (leg_of leaf.now) index server.0 (option_map reason_of r)) }
    {
        if let Some(leg) = self.same(leaf.symbol, server, index) {
            return Ok(Some(Reason::Same(index, leg.position.copy(alloc)?)));
        }
        match self.all(alloc, server)? {
            Some(legs) => Ok(Some(Reason::All(index, positions(alloc, legs.as_slice())?))),
            None => Ok(None),
        }
    }
}

/// The positions of the legs.
fn positions<'a>(alloc: Global, legs: &[&'a Leg<'a>]) -> Result<Vec<Position>, AllocError>
    ensures { IfOk result (λ v. v.items ≡ map (λ d. d.position) (map borrowed legs.now)) }
{
    let mut positions = Vec::new(alloc);
    for leg in legs {
        positions.push(leg.position.copy(alloc)?)?;
    }
    Ok(positions)
}
