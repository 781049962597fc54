//! The rules of one call: what its route has sent, and what it replies, once some legs have their outcomes.

ghost use Rattle.std.specs.Prelude.{◌≡◌, IfOk, option_map, slice_index};
ghost use Rattle.mcv_route.specs.Launched.{launched};
ghost use Rattle.mcv_route.specs.Outcomes.{outcomes as known};
ghost use Rattle.mcv_route.specs.Reply.{reply};
ghost use Rattle.mcv_route.specs.View.{view};
ghost use Rattle.mcv_rules.specs.RouteCall.{situation_of};
ghost use Rattle.mcv_rules.specs.History.{history_of};
ghost use Rattle.mcv_rules.specs.Status.{status_of, status_outcome};

use crate::answers::arrive;
use crate::asked::Asked;
use crate::layout::laid_out;
use crate::legs::send;
use crate::outcomes::Outcomes;
use crate::plan::Plan;
use crate::status::Status;
use mcv_base::{Mark, Moment, Op, Position, Rest};
use mcv_pools::Choice;
use mcv_route::{Launch, Route};
use std::alloc::{AllocError, Global};
use std::marker::Model;

/// The rules of one call by its route. Clauses see what was asked, of which tree, under which choice.
#[derive(Drop)]
pub struct Eval<'a> {
    route: &'a Route,
    asked: Asked<'a>,
    choice: &'a Choice,
    /// What the route does when it is asked so.
    plan: Plan,
}

impl<'a> Model for Eval<'a> {
    ghost use Rattle.mcv_rules.specs.RouteCall.{Called, called_code, situation_of};

    ghost Value = { Called };

    ghost coded = { called_code };

    ghost use Rattle.std.specs.Prelude.{◌≡◌, [], option_map};
    ghost use Rattle.mcv_base.specs.declared.operation.Mark.TheVariants.{Plain};
    ghost use Rattle.mcv_route.specs.View.{view as tree_of};
    ghost use Rattle.mcv_rules.specs.PlanInMemory.{Serves, situation_at};

    ghost view = { λ e. record { tree = tree_of e.route.now; op = e.asked.op; rest = e.asked.rest.now; since = option_map (λ m. m.0) e.asked.since; choice = e.choice.now } };

    ghost invariant = { λ e. (e.asked.mark ≡ Plain) × Serves e.plan (tree_of e.route.now) (situation_at e.asked []) };
}

impl<'a> Eval<'a> {
    /// The rules of a call: the route is asked for this operation at this rest, in the era that began at `since`
    /// (none: the first one), under this choice of servers.
    pub fn new(
        alloc: Global,
        route: &'a Route,
        op: Op,
        rest: &'a Rest,
        since: Option<Moment>,
        choice: &'a Choice,
    ) -> Result<Eval<'a>, AllocError>
        ensures { IfOk result (λ e. e ≡ record { tree = view route.now; op = op; rest = rest.now; since = option_map (λ m. m.0) since; choice = choice.now }) }
    {
        let asked = Asked {
            op,
            rest,
            since,
            mark: Mark::Plain,
        };
        let plan = laid_out(alloc, route, &asked, &Position::root(alloc))?;
        Ok(Eval {
            route,
            asked,
            choice,
            plan,
        })
    }

    /// The legs that the route has sent once these outcomes have come, in the order of their positions.
    pub fn launched(&self, alloc: Global, outcomes: &Outcomes) -> Result<Vec<Launch>, AllocError>
        ensures { IfOk result (λ legs. legs.items ≡ launched self.now.tree (situation_of self.now) (slice_index self.now.choice) (known (history_of outcomes.now.answered.now))) }
    {
        let mut found = Vec::new(alloc);
        send(alloc, &self.plan, self.choice, outcomes.known(), &mut found)?;
        Ok(found)
    }

    /// Whether the route has replied once these outcomes have come, and by which reply: of the replies that could be
    /// it, the one that came last.
    pub fn status(&self, outcomes: &Outcomes) -> Status
        ensures status { result ≡ status_of self.now.op outcomes.now.answered.now (reply self.now.tree (situation_of self.now) (history_of outcomes.now.answered.now)) }
        ensures outcome { status_outcome outcomes.now.answered.now result ≡ option_map (λ a. a.outcome) (reply self.now.tree (situation_of self.now) (history_of outcomes.now.answered.now)) }
    {
        match arrive(&self.plan, outcomes.known()).answer {
            None => Status::Waits,
            Some(answer) => Status::Replied(answer.source),
        }
    }
}
