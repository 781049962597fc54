//! The program `mcv` without its proxy, for who only judges, draws and mends configurations: `legs`, `check`, `draw`, `mend` and `spool` as
//! in the whole program. `run` is a bad command line here.
#![tactic(auto)]

use mcv_check::Accepted;
use mcv_command::{
    Ending, Proxy, Stop, SystemFiles, exit_status, given_words, run_words, says_more, second_line,
};
use mcv_input::{RunFault, read_at_most};
use mcv_words::{RunOptions, read_words};
use std::alloc::Global;
use std::fs::{File, Files};
use std::io;
use std::io::Write;
use std::process::ExitCode;
use std::rt::Env;
use std::sync::Arc;

fn main(rt: HostRuntime) -> ExitCode {
    let end = match run(&rt) {
        Ok(end) => end,
        Err(stop) => End {
            ended: Err(stop),
            more: None,
        },
    };
    if let Err(stop) = &end.ended {
        let _ = eprintln!(rt; "{stop}");
    }
    if let Some(more) = &end.more {
        let _ = eprintln!(rt; "{more}");
    }
    ExitCode::from(exit_status(&end.ended))
}

/// How the program ended, and what it says more of a fault.
#[derive(Drop)]
struct End {
    ended: Result<Ending, Stop>,
    more: Option<String>,
}

/// It serves nothing.
#[derive(Drop)]
struct NoProxy;

impl Proxy for NoProxy {
    ghost serves = { λ _ _ _ _ _. ⊥ };

    fn serve<W: Write>(
        &self,
        _alloc: Global,
        _accepted: Arc<Accepted>,
        _options: RunOptions<'_>,
        _out: &mut W,
    ) -> Result<(), RunFault> {
        Err(RunFault::Device)
    }
}

/// The most bytes that are read of a configuration: one more than it may have.
const READ_LIMIT: u64 = 16_777_217;

fn run<R: Env + AllocGlobal + Input + Print + Files<File = File>>(rt: &R) -> Result<End, Stop> {
    let alloc = rt.alloc();
    let words = given_words(rt)?;
    let texts: Vec<&str> = words.iter().map(|word| word.as_str()).collect(alloc)?;
    let texts = texts.as_slice();
    if texts.get(1).copied() == Some("run") {
        return Err(Stop::BadLine);
    }
    let is_detailed = match read_words(alloc, texts) {
        Ok(job) => says_more(&job),
        Err(_) => false,
    };
    if !is_detailed {
        let files = SystemFiles { system: rt };
        let ended = run_words(
            alloc,
            texts,
            &files,
            &NoProxy,
            &mut rt.reader(),
            &mut io::writer(rt),
        );
        return Ok(End { ended, more: None });
    }
    let input = read_at_most(alloc, &mut rt.reader(), READ_LIMIT)?;
    Ok(judge(rt, texts, input.as_slice()))
}

/// Does what the words ask for of a configuration, and says more of a fault in it.
fn judge<R: AllocGlobal + Print + Files<File = File>>(rt: &R, words: &[&str], input: &[u8]) -> End {
    let alloc = rt.alloc();
    let mut rest = input;
    let files = SystemFiles { system: rt };
    let ended = run_words(
        alloc,
        words,
        &files,
        &NoProxy,
        &mut rest,
        &mut io::writer(rt),
    );
    let more = second_line(alloc, input, &ended).unwrap_or(None);
    End { ended, more }
}
