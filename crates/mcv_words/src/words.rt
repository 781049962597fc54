//! The command line: its commands, as clap reads them. What words ask for is `IsJobOf`, and why they ask for nothing
//! `IsLineFault`.

ghost use Rattle.std.specs.Prelude.{◌≡◌, codes, false, option_map, IfOk, IfErr, IsOk, IsSome, map};
ghost use Rattle.clap.specs.Words.{Text, app_of, first_of, found_of, kind_of, rows_of, rule_of};
ghost use Rattle.clap.specs.declared.builder.command.Command.TheViews.{out-Command as fields_of};
ghost use Rattle.mcv_words.specs.Table.{window_option};
ghost use Rattle.mcv_words.specs.Words.{check_app, draw_app, file_rule, legs_app, line_fault_number, mcv_app, mend_app, run_app, spool_app, CanRun, IsCheckOf, IsDrawOf, IsFaultOfKind, IsGivenIn, IsJobOf, IsLineFault, IsMendOf, IsNumberIfGiven, IsRunOf, IsSpoolOf, MayBeGivenIn};
ghost use Rattle.mcv_words.specs.declared.words.LineFault.TheVariants.{Memory as out_of_memory};

use crate::help::{
    ABOUT, CHECK_ABOUT, CHECK_FORM, DRAW_ABOUT, DRAW_FORM, EXAMPLE, FILE, LEGS_ABOUT, LEGS_FORM,
    MEND_ABOUT, MEND_FORM, RUN_ABOUT, RUN_FORM, SPOOL_ABOUT, SPOOL_FORM,
};
use crate::options::{
    AnswerBytes, CheckOptions, ClientTimeout, Hubs, InRange, MaxClients, RunOptions, ServerTimeout,
    Sessions, Settings, SpoolOptions, Window,
};
use crate::table::{
    ADMIN, ALL, AT, CERT, CHECK, DOT, EXPLAIN, JSON, LISTEN, PATCH, QUIET, RUN, SPOOL, flag,
    number_option, with_options,
};
use clap::error::ErrorKind;
use clap::{Arg, ArgMatches, Command, Error as ClapError};
use mcv_base::Moment;
use std::alloc::{AllocError, Global};
use thiserror::Error;

/// What the program is asked to do.
#[derive(Clone, Copy, Debug, PartialEq, Eq)]
pub enum Job<'a> {
    /// To show the legs of a request that comes at a moment.
    Legs {
        at: Moment,
    },
    /// To judge a configuration, by the certificate in the file of this name where one is given, as the options say.
    Check {
        cert: Option<&'a str>,
        options: CheckOptions,
    },
    /// To draw a configuration, as SVG or for Graphviz.
    Draw {
        dot: bool,
    },
    /// To mend a configuration, or to write the patch that mends it.
    Mend {
        patch: bool,
    },
    /// To serve clients.
    Run(RunOptions<'a>),
    /// To show the records of a spool's file.
    Spool(SpoolOptions<'a>),
}

/// Why there is nothing to do.
#[derive(Debug, Drop, Error)]
pub enum LineFault {
    #[error("bad command line")]
    BadLine,
    #[error("out of memory")]
    Memory,
    /// Help was asked for: its text.
    #[error("{0}")]
    Help(String),
    /// The version was asked for.
    #[error("mcv 1")]
    Version,
}

impl LineFault {
    /// The number of the fault, from 1.
    pub fn number(&self) -> u8
        ensures { result ≡ line_fault_number self.now }
    {
        match self {
            LineFault::BadLine => 1,
            LineFault::Memory => 2,
            LineFault::Help(_) => 3,
            LineFault::Version => 4,
        }
    }
}

impl From<AllocError> for LineFault {
    ghost from_gives = { λ _ e. e ≡ out_of_memory };

    fn from(_error: AllocError) -> LineFault {
        LineFault::Memory
    }
}

fn legs_command<'a>(alloc: Global) -> Result<Command<'a>, AllocError>
    ensures app { IfOk result (λ c. app_of c ≡ legs_app) }
    ensures local { IfOk result (λ c. (fields_of c).has_globals ≡ false) }
{
    Command::new(alloc, "legs")
        .about(LEGS_ABOUT)
        .override_usage("mcv legs [--at SECONDS] < FILE")
        .after_help(LEGS_FORM)
        .arg(number_option(alloc, &AT))
}

fn check_command<'a>(alloc: Global) -> Result<Command<'a>, AllocError>
    ensures app { IfOk result (λ c. app_of c ≡ check_app) }
    ensures local { IfOk result (λ c. (fields_of c).has_globals ≡ false) }
{
    let check = Command::new(alloc, "check")
        .about(CHECK_ABOUT)
        .override_usage(
            "mcv check [--cert FILE] [--window SECONDS] [--explain] [--json]
                 [-q] < FILE",
        )
        .after_help(CHECK_FORM);
    with_options(alloc, check, &CHECK)
}

fn draw_command<'a>(alloc: Global) -> Result<Command<'a>, AllocError>
    ensures app { IfOk result (λ c. app_of c ≡ draw_app) }
    ensures local { IfOk result (λ c. (fields_of c).has_globals ≡ false) }
{
    Command::new(alloc, "draw")
        .about(DRAW_ABOUT)
        .override_usage("mcv draw [--dot] < FILE")
        .after_help(DRAW_FORM)
        .arg(flag(alloc, &DOT))
}

fn mend_command<'a>(alloc: Global) -> Result<Command<'a>, AllocError>
    ensures app { IfOk result (λ c. app_of c ≡ mend_app) }
    ensures local { IfOk result (λ c. (fields_of c).has_globals ≡ false) }
{
    Command::new(alloc, "mend")
        .about(MEND_ABOUT)
        .override_usage("mcv mend [--patch] < FILE")
        .after_help(MEND_FORM)
        .arg(flag(alloc, &PATCH))
}

fn run_command<'a>(alloc: Global) -> Result<Command<'a>, AllocError>
    ensures app { IfOk result (λ c. app_of c ≡ run_app) }
    ensures local { IfOk result (λ c. (fields_of c).has_globals ≡ false) }
{
    let run = Command::new(alloc, "run")
        .about(RUN_ABOUT)
        .override_usage("mcv run --listen ADDRESS --spool FILE [OPTIONS] < FILE")
        .after_help(RUN_FORM);
    with_options(alloc, run, &RUN)
}

fn file_argument<'a>(alloc: Global) -> Arg<'a>
    ensures rule { rule_of result ≡ file_rule }
    ensures local { result.global ≡ false }
{
    Arg::new(alloc, "file")
        .value_name("FILE")
        .required(true)
        .help(FILE)
}

fn spool_command<'a>(alloc: Global) -> Result<Command<'a>, AllocError>
    ensures app { IfOk result (λ c. app_of c ≡ spool_app) }
    ensures local { IfOk result (λ c. (fields_of c).has_globals ≡ false) }
{
    Command::new(alloc, "spool")
        .about(SPOOL_ABOUT)
        .override_usage("mcv spool FILE [--all]")
        .after_help(SPOOL_FORM)
        .arg(file_argument(alloc))?
        .arg(flag(alloc, &ALL))
}

fn command<'a>(alloc: Global) -> Result<Command<'a>, AllocError>
    ensures { IfOk result (λ c. app_of c ≡ mcv_app) }
{
    let check = check_command(alloc)?;
    let draw = draw_command(alloc)?;
    let legs = legs_command(alloc)?;
    let mend = mend_command(alloc)?;
    let run = run_command(alloc)?;
    let spool = spool_command(alloc)?;
    Command::new(alloc, "mcv")
        .version("1")
        .about(ABOUT)
        .after_help(EXAMPLE)
        .subcommand_required(true)
        .bin_name("mcv")?
        .subcommand(check)?
        .subcommand(draw)?
        .subcommand(legs)?
        .subcommand(mend)?
        .subcommand(run)?
        .subcommand(spool)
}

/// What clap's error says of the words.
fn line_fault(alloc: Global, error: &ClapError) -> LineFault
    ensures { IsFaultOfKind (kind_of error.now) result }
{
    match error.kind() {
        ErrorKind::OutOfMemory => LineFault::Memory,
        ErrorKind::DisplayHelp => match format!(in alloc; "{error}") {
            Ok(text) => LineFault::Help(text),
            Err(_) => LineFault::Memory,
        },
        ErrorKind::DisplayVersion => LineFault::Version,
        _ => LineFault::BadLine,
    }
}

/// The number that clap found for an option; None where it found no value. An error is that the value is no number, or out
/// of range.
fn number_of<T: InRange>(found: &ArgMatches<'_>) -> Result<Option<T>, LineFault>
    ensures number { IfOk result (λ number. IsNumberIfGiven T.option.name (rows_of (found_of found.now)) (option_map T.value number)) }
    ensures ok { MayBeGivenIn T.option (rows_of (found_of found.now)) → IsOk result }
{
    match found.try_get_one::<u64>(T::row().name) {
        Ok(Some(number)) => match T::new(number) {
            Some(number) => Ok(Some(number)),
            None => Err(LineFault::BadLine),
        },
        Ok(None) => Ok(None),
        Err(_) => Err(LineFault::BadLine),
    }
}

/// The job of `check`, by what clap found for its options.
fn check_job<'a>(found: &ArgMatches<'a>) -> Result<Job<'a>, LineFault>
    ensures job { IfOk result (IsCheckOf (rows_of (found_of found.now))) }
    ensures ok { IsGivenIn window_option (rows_of (found_of found.now)) → IsOk result }
{
    let cert = found.get_str(CERT.name);
    let Some(window) = number_of::<Window>(found)? else {
        return Err(LineFault::BadLine);
    };
    let explain = found.get_flag(EXPLAIN.name);
    let json = found.get_flag(JSON.name);
    let quiet = found.get_flag(QUIET.name);
    Ok(Job::Check {
        cert,
        options: CheckOptions {
            window,
            explain,
            json,
            quiet,
        },
    })
}

/// The job of `draw`, by what clap found for its options.
fn draw_job<'a>(found: &ArgMatches<'a>) -> Job<'a>
    ensures { IsDrawOf (rows_of (found_of found.now)) result }
{
    let dot = found.get_flag(DOT.name);
    Job::Draw { dot }
}

/// The job of `mend`, by what clap found for its options.
fn mend_job<'a>(found: &ArgMatches<'a>) -> Job<'a>
    ensures { IsMendOf (rows_of (found_of found.now)) result }
{
    let patch = found.get_flag(PATCH.name);
    Job::Mend { patch }
}

/// The job of `run`, by what clap found for its options.
fn run_job<'a>(found: &ArgMatches<'a>) -> Result<Job<'a>, LineFault>
    ensures job { IfOk result (IsRunOf (rows_of (found_of found.now))) }
    ensures ok { CanRun (rows_of (found_of found.now)) → IsOk result }
{
    let Some(listen) = found.get_str(LISTEN.name) else {
        return Err(LineFault::BadLine);
    };
    let Some(spool) = found.get_str(SPOOL.name) else {
        return Err(LineFault::BadLine);
    };
    let sessions = number_of::<Sessions>(found)?;
    let Some(hubs) = number_of::<Hubs>(found)? else {
        return Err(LineFault::BadLine);
    };
    let Some(window) = number_of::<Window>(found)? else {
        return Err(LineFault::BadLine);
    };
    let server_timeout = number_of::<ServerTimeout>(found)?;
    let client_timeout = number_of::<ClientTimeout>(found)?;
    let max_clients = number_of::<MaxClients>(found)?;
    let Some(answer_bytes) = number_of::<AnswerBytes>(found)? else {
        return Err(LineFault::BadLine);
    };
    let admin = found.get_str(ADMIN.name);
    Ok(Job::Run(RunOptions {
        listen,
        spool,
        admin,
        settings: Settings {
            sessions,
            hubs,
            window,
            server_timeout,
            client_timeout,
            max_clients,
            answer_bytes,
        },
    }))
}

/// The job of `spool`, by what clap found for its arguments.
fn spool_job<'a>(found: &ArgMatches<'a>) -> Result<Job<'a>, LineFault>
    ensures job { IfOk result (IsSpoolOf (rows_of (found_of found.now))) }
    ensures ok { IsSome (first_of (codes "file") (rows_of (found_of found.now))) → IsOk result }
{
    let Some(file) = found.get_str("file") else {
        return Err(LineFault::BadLine);
    };
    let all = found.get_flag(ALL.name);
    Ok(Job::Spool(SpoolOptions { file, all }))
}

/// Reads the words of a command line, of which the first is the program's name.
pub fn read_words<'a>(alloc: Global, words: &'a [&'a str]) -> Result<Job<'a>, LineFault>
    ensures job { IfOk result (IsJobOf (map (λ w. w.now) words.entry.now)) }
    ensures fault { IfErr result (IsLineFault (map (λ w. w.now) words.entry.now)) }
{
    let command = command(alloc)?;
    let matches = match command.try_get_matches_from(words) {
        Ok(matches) => matches,
        Err(error) => return Err(line_fault(alloc, &error)),
    };
    if let Some(found) = matches.subcommand_matches("check") {
        let Ok(job) = check_job(found) else {
            return Err(LineFault::BadLine);
        };
        return Ok(job);
    }
    if let Some(mending) = matches.subcommand_matches("mend") {
        return Ok(mend_job(mending));
    }
    if let Some(found) = matches.subcommand_matches("run") {
        let Ok(job) = run_job(found) else {
            return Err(LineFault::BadLine);
        };
        return Ok(job);
    }
    if let Some(found) = matches.subcommand_matches("spool") {
        let Ok(job) = spool_job(found) else {
            return Err(LineFault::BadLine);
        };
        return Ok(job);
    }
    if let Some(drawing) = matches.subcommand_matches("draw") {
        return Ok(draw_job(drawing));
    }
    let Some(found) = matches.subcommand_matches("legs") else {
        return Err(LineFault::BadLine);
    };
    let Some(at) = found.get_one::<u64>(AT.name) else {
        return Err(LineFault::BadLine);
    };
    Ok(Job::Legs { at: Moment(at) })
}
