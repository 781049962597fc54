//! How far a call has come.

ghost use Rattle.std.specs.Prelude.{◌≡◌, length};
ghost use Rattle.mcv_plan.specs.PastOutcomes.{IsKept};
ghost use Rattle.mcv_plan.specs.State.{entries};
ghost use Rattle.mcv_plan.specs.View.{view};

use crate::answer::Answer;
use crate::course::Course;

/// How far a call has come: which of its legs are launched, and its reply. A leg has the number of its entry, its place
/// among all legs that the call can launch.
#[derive(Drop)]
pub struct EvalState {
    pub(crate) course: Course,
    /// The reply, once it is there.
    pub(crate) reply: Option<Answer>,
    /// The legs that the last outcome launched, or the first wave.
    pub(crate) fresh: Vec<usize>,
    /// How many legs the call can launch.
    pub(crate) legs: usize,
    ghost kept: { IsKept course fresh },
    ghost counted: { legs ≡ length (entries (view course)) },
}
