//! The questions of a desk, by number.

ghost use Rattle.slab.specs.Slab.{get};
ghost use Rattle.std.specs.Prelude.{◌≡◌, [], true, IfSome};
ghost use Rattle.mcv_turn.specs.OpenRequests.{AreSameOpen};
ghost use Rattle.mcv_turn.specs.Question.{IsDone};
ghost use Rattle.mcv_turn.specs.Refusals.{WasCallRefused};
ghost use Rattle.mcv_turn.specs.Runs.{Runs};

use crate::kept::Kept;
use crate::question::Question;
use mcv_base::CallId;
use mcv_core::CoreFault;
use mcv_hub::{Guard, HubLedger, Seat};
use slab::Slab;
use std::alloc::Global;
use std::collections::VecDeque;
use std::sync::ledger::Ledger;

/// Whether the question of this number is there and done.
fn is_done_at<B: HubLedger>(questions: &Slab<Question<B>>, number: usize) -> bool
    ensures { result ≡ true → IfSome (get questions.now number) IsDone }
{
    match questions.get(number) {
        Some(question) => question.is_done(),
        None => false,
    }
}

/// The next of these numbers at which there is a question that is done; None where none is. The numbers before it go.
pub(crate) fn next_done<B: HubLedger>(
    done: &mut VecDeque<usize>,
    questions: &Slab<Question<B>>,
) -> Option<usize>
    ensures { IfSome result (λ number. IfSome (get questions.now number) IsDone) }
{
    for _question in 0..done.len() {
        let number = done.pop_front()?;
        if is_done_at(questions, number) {
            return Some(number);
        }
    }
    None
}

/// The call whose reply the question of this number awaits; None where it awaits none, or there is no such question.
pub(crate) fn awaits_at<B: HubLedger>(
    questions: &Slab<Question<B>>,
    number: usize,
) -> Option<CallId> {
    questions.get(number)?.awaits()
}

/// Begins calls for further keys of the question of this number, if there is one, whose values may have so many bytes. Why one was
/// refused, if one was.
pub(crate) fn begin_at<B: HubLedger, T: Ledger>(
    alloc: Global,
    guard: &mut Guard<'_, B, T>,
    seat: &mut Seat<B, T>,
    questions: &mut Slab<Question<B>>,
    number: usize,
    most: usize,
) -> Option<CoreFault>
    ensures run { Runs guard.old [] [] guard.new }
    ensures same { AreSameOpen questions.old questions.new }
    ensures refused { IfSome result (WasCallRefused B.opened) }
{
    let Some(question) = questions.get_mut(number) else {
        return None;
    };
    question.begin(alloc, guard, seat, most)
}

/// Takes the replies to the question of this number that are there, if there is one. False where one may be left, for want of memory
/// for its receipt.
pub(crate) fn take_at<B: HubLedger, T: Ledger>(
    guard: &mut Guard<'_, B, T>,
    seat: &mut Seat<B, T>,
    kept: &mut Kept,
    questions: &mut Slab<Question<B>>,
    number: usize,
) -> bool
    ensures run { Runs guard.old [] [] guard.new }
    ensures same { AreSameOpen questions.old questions.new }
{
    let Some(question) = questions.get_mut(number) else {
        return true;
    };
    question.take(guard, seat, kept)
}

/// Notes each question where it belongs. Whether there was memory for all.
pub(crate) fn look_at_all<B: HubLedger>(
    questions: &Slab<Question<B>>,
    entering: &mut VecDeque<usize>,
    ready: &mut Vec<usize>,
    done: &mut VecDeque<usize>,
) -> bool {
    entering.clear();
    ready.clear();
    done.clear();
    let mut noted = true;
    for number in 0..questions.capacity() {
        let Some(question) = questions.get(number) else {
            continue;
        };
        let is_noted = if question.is_done() {
            done.push_back(number).is_ok()
        } else if question.wants_calls() {
            entering.push_back(number).is_ok()
        } else {
            ready.push(number).is_ok()
        };
        noted = noted && is_noted;
    }
    noted
}
