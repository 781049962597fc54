//! What servers answer, in a word.

ghost use Rattle.std.specs.Prelude.{◌≡◌};
ghost use Rattle.mcv_witness.specs.Text.{done_word, number_word, outcome_word, read_word};

use mcv_base::{Op, Outcome};

fn read_word(outcome: Outcome) -> &'static [u8]
    ensures { result.now ≡ read_word outcome }
{
    match outcome {
        Outcome::Good => b"hit",
        Outcome::Soft => b"miss",
        Outcome::Error => b"error",
    }
}

fn number_word(outcome: Outcome) -> &'static [u8]
    ensures { result.now ≡ number_word outcome }
{
    match outcome {
        Outcome::Good => b"number",
        Outcome::Soft => b"absent",
        Outcome::Error => b"error",
    }
}

fn done_word(outcome: Outcome) -> &'static [u8]
    ensures { result.now ≡ done_word outcome }
{
    match outcome {
        Outcome::Good => b"deleted",
        Outcome::Soft => b"absent",
        Outcome::Error => b"error",
    }
}

/// What a leg of an operation answers, in the word that a finding's text has.
pub fn outcome_word(op: Op, outcome: Outcome) -> &'static [u8]
    ensures { result.now ≡ outcome_word op outcome }
{
    if op.is_reading() {
        read_word(outcome)
    } else if op.is_adjusting() {
        number_word(outcome)
    } else {
        done_word(outcome)
    }
}
