//! A call's evaluation: the first wave of its legs, and after each outcome those that it launches.

ghost use Rattle.std.specs.Prelude.{◌≡◌, ◌∷◌, ◌<◌, IfOk, List, [], length, slice_index};
ghost use Rattle.mcv_route.specs.declared.launch.Launch.{Launch as Leg};
ghost use Rattle.mcv_route.specs.Outcomes.{Choice as Chosen};
ghost use Rattle.mcv_route.specs.Situation.{Situation};
ghost use Rattle.mcv_route.specs.Tree.{Tree};
ghost use Rattle.mcv_rules.specs.PlanInMemory.{Serves};
ghost use Rattle.mcv_plan.specs.Entries.{legs_of};
ghost use Rattle.mcv_plan.specs.Evaluation.{IsAfter, IsAwaited, legs_count, shape};
ghost use Rattle.mcv_plan.specs.KnownOutcomes.{own_in};
ghost use Rattle.mcv_plan.specs.Laws.{AreOf, Evaluates, is_launched_by};
ghost use Rattle.mcv_plan.specs.PastOutcomes.{IsLegal, Past, new_of, own_of};
ghost use Rattle.mcv_plan.specs.State.{holds, sends, wave};

use crate::answer::Answer;
use crate::building::build;
use crate::hearing::advance;
use crate::launched::launches;
use crate::opening::open;
use crate::state::EvalState;
use mcv_base::Outcome;
use mcv_pools::Choice;
use mcv_route::Launch;
use mcv_rules::Plan;
use std::alloc::{AllocError, Global};

impl EvalState {
    /// The state of a call before any outcome, its first wave launched; and its entries: all legs that it can launch
    /// under the choice, in the order of their positions.
    pub fn new(
        alloc: Global,
        plan: &Plan,
        choice: &Choice,
    ) -> Result<(EvalState, Vec<Launch>), AllocError>
        ensures entries { IfOk result (λ r. r.1.items ≡ legs_of (slice_index choice.now) plan.now) }
        ensures evaluates { IfOk result (λ r. (t : Tree) (s : Situation) → Serves plan.now t s → Evaluates t s (slice_index choice.now) r.1.items (shape r.0)) }
        ensures count { IfOk result (λ r. legs_count r.0 ≡ length r.1.items) }
        ensures begun { IfOk result (λ r. IsAfter [] r.0) }
        ensures fresh { IfOk result (λ r. r.0.fresh.items ≡ wave (shape r.0)) }
    {
        let mut entries = Vec::new(alloc);
        let course = build(alloc, plan, choice, &mut entries)?;
        let legs = entries.len();
        let mut fresh = Vec::with_capacity(alloc, legs)?;
        let reply = open(&course, &mut fresh);
        let state = EvalState {
            course,
            reply,
            fresh,
            legs,
        };
        Ok((state, entries))
    }

    /// Takes in the outcome of a leg that is launched and has none.
    pub fn advance(&mut self, entry: usize, outcome: Outcome)
        requires { entry < legs_count self.old }
        ensures shape { shape self.new ≡ shape self.old }
        ensures heard { (es : Past) → IsAfter es self.old → IsAwaited es entry (shape self.old) → IsAfter ((entry, outcome) ∷ es) self.new }
        ensures fresh { (es : Past) → IsAfter es self.old → IsAwaited es entry (shape self.old)
            → self.new.fresh.items ≡ new_of (sends (own_of es) (shape self.old)) (sends (own_of ((entry, outcome) ∷ es)) (shape self.old)) }
    {
        self.fresh.clear();
        let reply = advance(&mut self.course, entry, outcome, &mut self.fresh);
        self.reply = reply.or(self.reply);
    }

    /// The reply and its source, once it is there.
    pub fn status(&self) -> Option<Answer>
        ensures { result ≡ self.now.reply }
    {
        self.reply
    }

    /// Whether the leg with this number is launched, where exactly these outcomes are known, by the legs' numbers: as the
    /// route's definitions say, in whatever order they came. Takes no memory; the outcomes that have come so far don't
    /// matter.
    pub fn is_launched(&self, outcomes: &[Option<Outcome>], entry: usize) -> bool
        ensures known { result ≡ holds entry (sends (own_in outcomes.now) (shape self.now)) }
        ensures rules { (t : Tree) (s : Situation) (c : Chosen) (ls : List Leg) (past : Past) → Evaluates t s c ls (shape self.now) → IsLegal (shape self.now) past → AreOf outcomes.now past
            → entry < length ls → result ≡ is_launched_by t s c ls past entry }
    {
        launches(&self.course, outcomes, entry)
    }

    /// How many legs the call can launch: their numbers are those below.
    pub fn legs(&self) -> usize
        ensures { result ≡ legs_count self.now }
    {
        self.legs
    }

    /// The legs that the last outcome launched, or those of the first wave, in the order of their positions.
    pub fn fresh(&self) -> &[usize]
        ensures { result.now ≡ self.now.fresh.items }
    {
        self.fresh.as_slice()
    }
}
