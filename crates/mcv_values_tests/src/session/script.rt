//! A desk whose answers are given, and that notes what it was asked.

ghost use Rattle.std.specs.Prelude.{◌≡◌, length};
ghost use Rattle.mcv_text.specs.Request.{request_value};
ghost use Rattle.mcv_session.specs.Desk.{keys_of};

use crate::legs::{hit, leg_line};
use mcv_base::{FixedReply, Part, Request};
use mcv_session::{Desk, DeskFault};
use std::alloc::{AllocError, Global};
use std::sync::Arc;

/// Answers each request by the next part of a text: a letter for each key, or the number of a fault.
#[derive(Drop)]
pub struct Script<'a> {
    alloc: Global,
    answers: &'a str,
    asked: Vec<u8>,
}

impl<'a> Script<'a> {
    /// A desk with these answers, slashes between them.
    pub fn new(alloc: Global, answers: &'a str) -> Script<'a> {
        let asked = Vec::new(alloc);
        Script {
            alloc,
            answers,
            asked,
        }
    }

    /// The texts of the first legs of what was asked.
    pub fn asked(&self) -> &[u8] {
        self.asked.as_slice()
    }

    fn next_answer(&mut self) -> &'a str {
        let answers = self.answers;
        match answers.split_once('/') {
            Some((now, later)) => {
                self.answers = later;
                now
            }
            None => {
                self.answers = "";
                answers
            }
        }
    }

    fn note(&mut self, request: &Request) -> Option<()> {
        let Request::Ask(ask) = request else {
            return None;
        };
        let text = leg_line(self.alloc, ask)?;
        self.asked.extend_from_slice(text.as_slice()).ok()
    }
}

/// The reply without a value that a letter means.
fn fixed(letter: u8) -> FixedReply {
    match letter {
        b'f' => FixedReply::Lost,
        b's' => FixedReply::Stored,
        b'd' => FixedReply::Deleted,
        b'n' => FixedReply::NotFound,
        _ => FixedReply::Miss,
    }
}

/// The reply that a letter means: h is a hit with `x`, f an error line, m a miss.
fn part(alloc: Global, letter: u8) -> Result<Part, AllocError> {
    if letter == b'h' {
        let hit = hit(alloc, 0, Some(7), b"x")?;
        Ok(Part::Owned(Arc::new(alloc, hit)?))
    } else {
        Ok(Part::Fixed(fixed(letter)))
    }
}

fn parts_of(alloc: Global, letters: &str) -> Result<Vec<Part>, AllocError> {
    let mut parts = Vec::new(alloc);
    for letter in letters.as_bytes() {
        parts.push(part(alloc, *letter)?)?;
    }
    Ok(parts)
}

fn fault_of(letters: &str) -> Option<DeskFault> {
    match letters {
        "1" => Some(DeskFault::NoRoute),
        "2" => Some(DeskFault::BadKey),
        "3" => Some(DeskFault::Busy),
        "4" => Some(DeskFault::Memory),
        _ => None,
    }
}

fn key_count(request: &Request) -> usize
    ensures { result ≡ length (keys_of (request_value request.now)) }
{
    match request {
        Request::Ask(ask) => ask.keys.len(),
        Request::Version | Request::Quit => 0,
    }
}

impl<'a> Desk for Script<'a> {
    ghost use Rattle.std.specs.Prelude.{⊤};

    ghost asks = { λ _ _ _ _. ⊤ };

    fn ask(&mut self, request: &Arc<Request>) -> Result<Vec<Part>, DeskFault> {
        let letters = self.next_answer();
        if self.note(request).is_none() {
            return Err(DeskFault::Memory);
        }
        if let Some(fault) = fault_of(letters) {
            return Err(fault);
        }
        match parts_of(self.alloc, letters) {
            Ok(parts) if parts.len() == key_count(request) => Ok(parts),
            _ => Err(DeskFault::Memory),
        }
    }
}
