//! What is counted by words.

ghost use Rattle.std.specs.Prelude.{◌≡◌, IfOk, map, string_bytes};
ghost use Rattle.std.specs.List.{Contains};
ghost use Rattle.mcv_base.specs.Reply.{fixed_value, part_value, reply_value};
ghost use Rattle.mcv_tally.specs.Words.{cause_word, counted_words, reply_word, tallied_words};

use crate::count::Count;
use mcv_base::{FixedReply, Part, Reply};
use mcv_metrics::WordCount;
use mcv_session::DeskFault;
use std::alloc::{AllocError, Global};

/// The operations, in the order of their numbers.
pub(crate) const OPERATIONS: [&str; 12] = [
    "get", "gets", "set", "add", "replace", "append", "prepend", "cas", "delete", "touch", "incr",
    "decr",
];

/// What a call may come to.
pub(crate) const OUTCOMES: [&str; 10] = [
    "hit",
    "miss",
    "stored",
    "not_stored",
    "exists",
    "not_found",
    "deleted",
    "touched",
    "number",
    "fault",
];

/// Why a request may be refused.
pub(crate) const CAUSES: [&str; 4] = ["no_route", "bad_key", "busy", "memory"];

fn fixed_word(reply: FixedReply) -> &'static str
    ensures { result.now ≡ reply_word (fixed_value reply) }
{
    match reply {
        FixedReply::Miss => "miss",
        FixedReply::Stored => "stored",
        FixedReply::NotStored => "not_stored",
        FixedReply::Exists => "exists",
        FixedReply::NotFound => "not_found",
        FixedReply::Deleted => "deleted",
        FixedReply::Touched => "touched",
        FixedReply::Number(_) => "number",
        FixedReply::ErrorRoute | FixedReply::Lost => "fault",
    }
}

fn owned_word(reply: &Reply) -> &'static str
    ensures { result.now ≡ reply_word (reply_value reply.now) }
{
    match reply {
        Reply::Hit { .. } => "hit",
        Reply::Miss => "miss",
        Reply::Stored => "stored",
        Reply::NotStored => "not_stored",
        Reply::Exists => "exists",
        Reply::NotFound => "not_found",
        Reply::Deleted => "deleted",
        Reply::Touched => "touched",
        Reply::Number(_) => "number",
        Reply::Fault(_) => "fault",
    }
}

/// The word for a reply.
pub fn reply_word(reply: &Part) -> &'static str
    ensures { result.now ≡ reply_word (part_value reply.now) }
{
    match reply {
        Part::Fixed(fixed) => fixed_word(*fixed),
        Part::Owned(owned) => owned_word(owned),
    }
}

/// The word for why a request was refused.
pub fn cause_word(fault: DeskFault) -> &'static str
    ensures { result.now ≡ cause_word fault }
{
    match fault {
        DeskFault::NoRoute => "no_route",
        DeskFault::BadKey => "bad_key",
        DeskFault::Busy => "busy",
        DeskFault::Memory => "memory",
    }
}

/// A word, and how often it was counted.
#[derive(Drop)]
pub struct WordTally {
    pub word: String,
    pub count: Count,
}

impl WordTally {
    /// What was counted of it up to now.
    fn counts(&self, alloc: Global) -> Result<WordCount, AllocError>
        ensures { IfOk result (λ counts. string_bytes counts.word ≡ string_bytes self.now.word) }
    {
        Ok(WordCount {
            word: String::from_str(alloc, self.word.as_str())?,
            number: self.count.now(),
        })
    }
}

/// Nothing yet, of each of these words.
#[tactic(auto, using(crate::proofs::CountedWords::tallied_more))]
pub(crate) fn tallies_of(alloc: Global, words: &[&str]) -> Result<Vec<WordTally>, AllocError>
    ensures { IfOk result (λ tallies. tallied_words tallies.items ≡ map (λ w. w.now) words.now) }
{
    let mut tallies = Vec::new(alloc);
    for word in words {
        tallies.push(WordTally {
            word: String::from_str(alloc, *word)?,
            count: Count::new(),
        })?;
    }
    Ok(tallies)
}

/// Counts a word, which is one of these, so many times more.
pub(crate) fn count_word(tallies: &[WordTally], word: &str, times: u64)
    requires { Contains (tallied_words tallies.now) word.now }
{
    for tally in tallies {
        if tally.word.as_str() == word {
            tally.count.add(times);
            return;
        }
    }
}

/// What was counted of each word up to now, in their order.
#[tactic(auto, using(crate::proofs::CountedWords::counted_more))]
pub(crate) fn counts_of(alloc: Global, tallies: &[WordTally]) -> Result<Vec<WordCount>, AllocError>
    ensures { IfOk result (λ counts. counted_words counts.items ≡ tallied_words tallies.now) }
{
    let mut counts = Vec::new(alloc);
    for tally in tallies {
        counts.push(tally.counts(alloc)?)?;
    }
    Ok(counts)
}
