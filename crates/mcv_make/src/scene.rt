//! What is read off a route for a finding: how its leaf is read, how a delete is acknowledged, and the indexes.

ghost use Rattle.std.specs.Prelude.{◌≡◌, ◌<◌, List, Some, IfOk, option_map, true};
ghost use Rattle.mcv_base.specs.Operation.{op_number, shows_value};
ghost use Rattle.mcv_base.specs.declared.operation.Op.{Op as Operation};
ghost use Rattle.mcv_base.specs.declared.operation.Op.TheVariants.{Delete as Deleting};
ghost use Rattle.mcv_base.specs.declared.reply.Outcome.TheVariants.{Good as Done};
ghost use Rattle.mcv_route.specs.Outcomes.{Choice as Chosen};
ghost use Rattle.mcv_route.specs.Situation.{asked};
ghost use Rattle.mcv_route.specs.View.{view};
ghost use Rattle.mcv_rules.specs.Plans.{plan};
ghost use Rattle.mcv_rules.specs.declared.plan.PlannedLeg.{PlannedLeg};
ghost use Rattle.mcv_symbolic.specs.JustifiedRoutes.{IsReadableAt};
ghost use Rattle.mcv_symbolic.specs.Sets.{AreLegsAt, CanHitAt, IsAcknowledged};
ghost use Rattle.mcv_witness.specs.Finding.{outcomes_of};
ghost use Rattle.mcv_make.specs.FreeIndexes.{free_indexes};
ghost use Rattle.mcv_symbolic.specs.ShownAnswers.{answers, history_of, leaf_hit};

use crate::free::free_choice;
use mcv_base::{Moment, Op, Outcome, Position, Rest, ServerId};
use mcv_pools::{Choice, Symbol};
use mcv_route::Route;
use mcv_symbolic::{Case, LegAnswer};
use mcv_witness::LegOutcome;
use std::alloc::{AllocError, Global};

/// A route with a rest, with deletes in the era that began at `since` and gets in the one that began at `read` (none: the
/// first one).
#[derive(Clone, Copy)]
pub struct Scene<'a> {
    pub route: &'a Route,
    pub rest: &'a Rest,
    pub since: Option<Moment>,
    pub read: Option<Moment>,
}

/// How a leaf is read: the operation, and what the legs answer.
#[derive(Drop)]
pub struct Reading {
    pub op: Op,
    pub legs: Vec<LegOutcome>,
}

/// The answers, each with a position of its own.
fn copied(alloc: Global, answers: &[LegAnswer]) -> Result<Vec<LegOutcome>, AllocError>
    ensures { IfOk result (λ legs. outcomes_of legs.items ≡ history_of answers.now) }
{
    let mut legs = Vec::with_capacity(alloc, answers.len())?;
    for answer in answers {
        let position = answer.leg.position.copy(alloc)?;
        legs.push(LegOutcome {
            position,
            outcome: answer.outcome,
        })?;
    }
    Ok(legs)
}

impl<'a> Scene<'a> {
    /// The outcomes by which the leaf's hit is the answer; none where it can't be.
    fn hit(
        &self,
        alloc: Global,
        op: Op,
        leaf: &Position,
    ) -> Result<Option<Vec<LegOutcome>>, AllocError>
        ensures { IfOk result (λ found. option_map (λ legs. outcomes_of legs.items) found ≡ leaf_hit leaf.now (plan (view self.now.route.now) (asked op self.now.rest.now (option_map (λ m. m.0) self.now.read)))) }
    {
        let case = Case::new(alloc, self.route, op, self.rest, self.read)?;
        let Some(legs) = case.hit_of(alloc, leaf)? else {
            return Ok(None);
        };
        Ok(Some(copied(alloc, legs.as_slice())?))
    }

    /// How a leaf that can be read is read: by the first of get, gets, incr and decr that is answered from it.
    pub fn reading(&self, alloc: Global, leaf: &Position) -> Result<Reading, AllocError>
        requires { IsReadableAt (view self.now.route.now) self.now.rest.now (option_map (λ m. m.0) self.now.read) leaf.now }
        ensures reading { IfOk result (λ r. shows_value r.op ≡ true) }
        ensures led { IfOk result (λ r. leaf_hit leaf.now (plan (view self.now.route.now) (asked r.op self.now.rest.now (option_map (λ m. m.0) self.now.read))) ≡ Some (outcomes_of r.legs.items)) }
        ensures first { IfOk result (λ r. (op : Operation) → shows_value op ≡ true → op_number op < op_number r.op → (c : Chosen) → CanHitAt (view self.now.route.now) (asked op self.now.rest.now (option_map (λ m. m.0) self.now.read)) c leaf.now → ⊥) }
    {
        if let Some(legs) = self.hit(alloc, Op::Get, leaf)? {
            return Ok(Reading { op: Op::Get, legs });
        }
        if let Some(legs) = self.hit(alloc, Op::Gets, leaf)? {
            return Ok(Reading { op: Op::Gets, legs });
        }
        if let Some(legs) = self.hit(alloc, Op::Incr, leaf)? {
            return Ok(Reading { op: Op::Incr, legs });
        }
        let Some(legs) = self.hit(alloc, Op::Decr, leaf)? else {
            unreachable!()
        };
        Ok(Reading { op: Op::Decr, legs })
    }

    /// The outcomes by which a delete is acknowledged, and no leg was sent that it needn't have.
    pub fn deletes(&self, alloc: Global) -> Result<Vec<LegOutcome>, AllocError>
        ensures { IfOk result (λ legs. outcomes_of legs.items ≡ answers Done (plan (view self.now.route.now) (asked Deleting self.now.rest.now (option_map (λ m. m.0) self.now.since)))) }
    {
        let case = Case::new(alloc, self.route, Op::Delete, self.rest, self.since)?;
        let legs = case.answers(alloc, Outcome::Good)?;
        copied(alloc, legs.as_slice())
    }

    /// Of each symbol the least index at which no leg that each acknowledged delete has sent has the server; of the
    /// symbol `own` the index `at`.
    pub fn choice(
        &self,
        alloc: Global,
        symbols: &[Symbol],
        server: ServerId,
        own: usize,
        at: usize,
    ) -> Result<Choice, AllocError>
        ensures { IfOk result (λ chosen. (legs : List PlannedLeg)
            × ((c : Chosen) → AreLegsAt (view self.now.route.now) (IsAcknowledged (view self.now.route.now) self.now.rest.now (option_map (λ m. m.0) self.now.since) c) legs)
            × (chosen ≡ free_indexes legs server.0 own at 0 symbols.now)) }
    {
        let case = Case::new(alloc, self.route, Op::Delete, self.rest, self.since)?;
        let legs = case.acknowledged_legs(alloc)?;
        free_choice(alloc, symbols, legs.as_slice(), server, own, at)
    }
}
