//! A route as the checker looks at it: asked for one operation at a rest in an era, under any choice.

ghost use Rattle.std.specs.Prelude.{◌≡◌, ◌↔◌, IfOk, IsTrue, map, not, option_map};
ghost use Rattle.mcv_base.specs.Reply.{is_error};
ghost use Rattle.mcv_base.specs.declared.operation.Op.TheVariants.{Delete as Deleting};
ghost use Rattle.mcv_route.specs.Outcomes.{Choice};
ghost use Rattle.mcv_route.specs.View.{view};
ghost use Rattle.mcv_rules.specs.Plans.{plan};
ghost use Rattle.mcv_symbolic.specs.Case.{situation_of};
ghost use Rattle.mcv_symbolic.specs.Sets.{AreLegsAt, CanBeAcknowledged, CanHitAt, IsAcknowledged};
ghost use Rattle.mcv_symbolic.specs.ShownAnswers.{answers, history_of, leaf_hit};

use crate::sets::{push_acknowledged, push_hits, reply_if_all};
use crate::shown::{Added, LegAnswer, push_answers, push_leaf_hit};
use mcv_base::{Mark, Moment, Op, Outcome, Position, Rest};
use mcv_route::Route;
use mcv_rules::{Asked, Plan, PlannedLeg, laid_out};
use std::alloc::{AllocError, Global};
use std::marker::Model;

/// A route with what it is asked. Clauses see its tree, the operation, the rest and the break at which the era began.
#[derive(Drop)]
pub struct Case<'a> {
    route: &'a Route,
    asked: Asked<'a>,
    /// What the route does when it is asked so.
    plan: Plan,
}

impl<'a> Model for Case<'a> {
    ghost use Rattle.mcv_symbolic.specs.Case.{CaseValue, case_code};

    ghost Value = { CaseValue };

    ghost coded = { case_code };

    ghost use Rattle.std.specs.Prelude.{◌≡◌, option_map};
    ghost use Rattle.mcv_route.specs.Situation.{asked as asking};
    ghost use Rattle.mcv_route.specs.View.{view as tree_of};
    ghost use Rattle.mcv_rules.specs.Plans.{plan as plan_for};
    ghost use Rattle.mcv_rules.specs.NormalForm.{whole_of};

    ghost view = { λ c. record { tree = tree_of c.route.now; op = c.asked.op; rest = c.asked.rest.now; since = option_map (λ m. m.0) c.asked.since } };

    ghost invariant = { λ c. whole_of c.plan ≡ plan_for (tree_of c.route.now) (asking c.asked.op c.asked.rest.now (option_map (λ m. m.0) c.asked.since)) };
}

impl<'a> Case<'a> {
    /// The route, asked for this operation at this rest, in the era that began at `since` (none: the first one).
    pub fn new(
        alloc: Global,
        route: &'a Route,
        op: Op,
        rest: &'a Rest,
        since: Option<Moment>,
    ) -> Result<Case<'a>, AllocError>
        ensures { IfOk result (λ c. c ≡ record { tree = view route.now; op = op; rest = rest.now; since = option_map (λ m. m.0) since }) }
    {
        let asked = Asked {
            op,
            rest,
            since,
            mark: Mark::Plain,
        };
        let plan = laid_out(alloc, route, &asked, &Position::root(alloc))?;
        Ok(Case { route, asked, plan })
    }

    /// The legs whose hit can be the answer, in the order of their positions.
    pub fn readable(&self, alloc: Global) -> Result<Vec<&PlannedLeg>, AllocError>
        ensures { IfOk result (λ legs. (choice : Choice) → AreLegsAt self.now.tree (CanHitAt self.now.tree (situation_of self.now) choice) (map (λ l. l.now) legs.items)) }
    {
        let mut legs = Vec::new(alloc);
        push_hits(&self.plan, &mut legs)?;
        Ok(legs)
    }

    /// Whether a delete can have a reply that isn't an error.
    pub fn can_acknowledge(&self) -> bool
        requires { self.now.op ≡ Deleting }
        ensures { (choice : Choice) → IsTrue result ↔ CanBeAcknowledged self.now.tree self.now.rest self.now.since choice }
    {
        is_done(reply_if_all(&self.plan, Outcome::Good))
    }

    /// The legs that have been sent wherever a delete has a reply, those of shadows left out, in the order of their
    /// positions.
    pub fn acknowledged_legs(&self, alloc: Global) -> Result<Vec<&PlannedLeg>, AllocError>
        requires { self.now.op ≡ Deleting }
        ensures { IfOk result (λ legs. (choice : Choice) → AreLegsAt self.now.tree (IsAcknowledged self.now.tree self.now.rest self.now.since choice) (map (λ l. l.now) legs.items)) }
    {
        let mut legs = Vec::new(alloc);
        push_acknowledged(&self.plan, &mut legs)?;
        Ok(legs)
    }

    /// The answers by which the route has its reply where each leg that it needs answers so, in the order of their
    /// positions.
    pub fn answers(&self, alloc: Global, answer: Outcome) -> Result<Vec<LegAnswer<'_>>, AllocError>
        ensures { IfOk result (λ legs. history_of legs.items ≡ answers answer (plan self.now.tree (situation_of self.now))) }
    {
        let mut legs = Vec::new(alloc);
        push_answers(&self.plan, answer, &mut legs)?;
        Ok(legs)
    }

    /// The answers by which the leaf at the position hits, and its hit is the route's answer; None where there are
    /// none.
    pub fn hit_of(
        &self,
        alloc: Global,
        leaf: &Position,
    ) -> Result<Option<Vec<LegAnswer<'_>>>, AllocError>
        ensures { IfOk result (λ found. option_map (λ legs. history_of legs.items) found ≡ leaf_hit leaf.now (plan self.now.tree (situation_of self.now))) }
    {
        let mut legs = Vec::new(alloc);
        match push_leaf_hit(&self.plan, leaf, Outcome::Error, &mut legs)? {
            Added::Hit => Ok(Some(legs)),
            Added::Alike(_) => Ok(None),
        }
    }
}

/// Whether the reply of a delete says that it was done.
fn is_done(reply: Outcome) -> bool
    ensures { result ≡ not (is_error reply) }
{
    match reply {
        Outcome::Good => true,
        Outcome::Soft => true,
        Outcome::Error => false,
    }
}
