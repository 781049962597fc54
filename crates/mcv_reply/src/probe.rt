//! The reader of the answer to a probe, `VERSION <text>`.

ghost use Rattle.std.specs.Prelude.{◌≡◌, [], codes};
ghost use Rattle.mcv_reply.specs.Candidate.{IsKept};
ghost use Rattle.mcv_reply.specs.Probe.{FeedsProbe, IsProbeAt, ReadsProbe, probe_state_in};
ghost use Rattle.mcv_reply.specs.Reader.{Fed};

use crate::fault::ReplyFault;
use crate::line::{Candidates, candidates, go_on, said, without_return};
use crate::word::Row;
use memchr::memchr;
use std::alloc::Global;
use std::marker::Model;
use std::mem;

/// What of the answer is being read.
#[derive(Clone, Copy, PartialEq, Eq)]
pub enum ProbeStage {
    Line,
    /// Nothing: the answer has been given.
    Answered,
    /// Nothing: a fault has been given.
    Closed,
}

/// A key for lines that have none.
const NO_KEY: &[u8] = b"-";

/// A piece of the line.
fn read(
    alloc: Global,
    text: &mut Vec<u8>,
    candidates: &mut Candidates,
    piece: &[u8],
) -> Result<Option<Vec<u8>>, ReplyFault>
    requires kept { IsKept Row.Probe (codes "-") text.old.items candidates.old.items }
    ensures { ReadsProbe text.old.items piece.now result text.new.items candidates.new.items }
{
    match memchr(b'\n', piece) {
        None => {
            go_on(Row::Probe, NO_KEY, text, candidates, piece)?;
            Ok(None)
        }
        Some(end) => {
            go_on(Row::Probe, NO_KEY, text, candidates, &piece[..end])?;
            if end + 1 != piece.len() {
                return Err(ReplyFault::NotAReply);
            }
            match said(Row::Probe, candidates) {
                None => Err(ReplyFault::NotAReply),
                Some(_said) => Ok(Some(without_return(mem::replace(text, Vec::new(alloc))))),
            }
        }
    }
}

/// Reads the answer to one probe from pieces. Clauses see the bytes fed, or that it has answered,
/// or that it is closed.
#[derive(Drop)]
pub struct ProbeReader {
    alloc: Global,
    stage: ProbeStage,
    text: Vec<u8>,
    candidates: Candidates,
}

impl Model for ProbeReader {
    ghost use Rattle.mcv_reply.specs.Reader.{ReaderState};
    ghost use Rattle.mcv_reply.specs.Probe.{IsProbeAt, probe_state_in};

    ghost Value = { ReaderState };

    ghost view = { λ r. probe_state_in r.stage r.text.items };

    ghost invariant = { λ r. IsProbeAt r.stage r.text.items r.candidates.items };
}

impl ProbeReader {
    /// A reader to which nothing has been fed. It takes no memory.
    pub fn new(alloc: Global) -> ProbeReader
        ensures { result ≡ Fed [] }
    {
        ProbeReader {
            alloc,
            stage: ProbeStage::Line,
            text: Vec::new(alloc),
            candidates: candidates(Row::Probe, NO_KEY),
        }
    }

    /// What all bytes fed so far are: an answer, given as its line without the end, the front of
    /// one (None), or no such front. A fault closes the reader; behind an answer the next piece is
    /// NotAReply, an empty one too.
    pub fn feed(&mut self, piece: &[u8]) -> Result<Option<Vec<u8>>, ReplyFault>
        ensures { FeedsProbe self.old piece.now result self.new }
    {
        match self.stage {
            ProbeStage::Answered => {
                self.stage = ProbeStage::Closed;
                Err(ReplyFault::NotAReply)
            }
            ProbeStage::Closed => Err(ReplyFault::Closed),
            ProbeStage::Line => {
                match read(self.alloc, &mut self.text, &mut self.candidates, piece) {
                    Ok(version) => {
                        if version.is_some() {
                            self.stage = ProbeStage::Answered;
                        }
                        Ok(version)
                    }
                    Err(fault) => {
                        self.stage = ProbeStage::Closed;
                        Err(fault)
                    }
                }
            }
        }
    }
}
