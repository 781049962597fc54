//! How far a call has come: which of its entries are launched, and its reply, by the rules of its route.

ghost use Rattle.std.specs.Prelude.{◌≡◌, ◌<◌, ◌∷◌, IfOk, List, not, option_map, slice_index, ◌&&◌};
ghost use Rattle.mcv_route.specs.declared.launch.Launch.{Launch as Leg};
ghost use Rattle.mcv_route.specs.Outcomes.{Choice as Chosen};
ghost use Rattle.mcv_route.specs.Situation.{Situation, asked};
ghost use Rattle.mcv_route.specs.Tree.{Tree};
ghost use Rattle.mcv_route.specs.View.{view};
ghost use Rattle.mcv_core.specs.CallProgress.{CanAdvance, HasOpened, IsTracked, Past, count, fresh, history_by, is_sent, places_from};

use mcv_base::{Mark, Moment, Op, Outcome, Position, Rest};
use mcv_plan::EvalState;
use mcv_pools::Choice;
use mcv_route::{Launch, Route};
use mcv_rules::{Asked, laid_out};
use std::alloc::{AllocError, Global};

/// The state of a call of this operation before any outcome, and its entries.
pub fn open(
    alloc: Global,
    route: &Route,
    op: Op,
    rest: &Rest,
    since: Option<Moment>,
    choice: &Choice,
) -> Result<(EvalState, Vec<Launch>), AllocError>
    ensures { IfOk result (λ r. HasOpened (view route.now) (asked op rest.now (option_map (λ m. m.0) since)) (slice_index choice.now) r.1.items r.0) }
{
    let asked = Asked {
        op,
        rest,
        since,
        mark: Mark::Plain,
    };
    let plan = laid_out(alloc, route, &asked, &Position::root(alloc))?;
    EvalState::new(alloc, &plan, choice)
}

/// Takes in the outcome of an entry that is launched and has none.
pub fn advance(state: &mut EvalState, entry: usize, outcome: Outcome)
    requires { entry < count state.old }
    ensures count { count state.new ≡ count state.old }
    ensures tracked { (t : Tree) (s : Situation) (c : Chosen) (es : List Leg) (past : Past) → IsTracked t s c es past state.old → CanAdvance t s c es past entry
        → IsTracked t s c es ((entry, outcome) ∷ past) state.new }
    ensures fresh { (t : Tree) (s : Situation) (c : Chosen) (es : List Leg) (past : Past) → IsTracked t s c es past state.old → CanAdvance t s c es past entry
        → fresh state.new ≡ places_from 0 (λ l. is_sent t s c (history_by es ((entry, outcome) ∷ past)) l && not (is_sent t s c (history_by es past) l)) es }
{
    state.advance(entry, outcome);
}
