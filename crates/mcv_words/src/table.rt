//! The options of the commands, a row each: what clap is told of an option (`number_option`, `text_option`, `flag`), the
//! name by which its value is found, and the range of a number's type (`InRange`) come from its row.

ghost use Rattle.std.specs.Prelude.{◌≡◌, ◌↔◌, ◌≤◌, fold, map, false, IfOk, IsTrue};
ghost use Rattle.clap.specs.Words.{app_of, rule_of, with_rule};
ghost use Rattle.clap.specs.declared.builder.command.Command.TheViews.{out-Command as fields_of};
ghost use Rattle.mcv_words.specs.Table.{option_of};
ghost use Rattle.mcv_words.specs.Words.{flag_row_rule, number_rule, row_rule, text_row_rule};

use clap::builder::ValueParser;
use clap::{Arg, ArgAction, Command};
use std::alloc::{AllocError, Global};

/// An option that takes a number.
#[derive(Clone, Copy, Debug)]
pub struct NumberRow {
    pub name: &'static str,
    /// What help calls its number.
    pub value: &'static str,
    pub least: u64,
    pub most: u64,
    /// The number where none is given; None where the option may be left out.
    pub default: Option<&'static str>,
    pub help: &'static str,
}

/// An option that takes a text.
#[derive(Clone, Copy)]
pub(crate) struct TextRow {
    pub name: &'static str,
    /// What help calls its text.
    pub value: &'static str,
    pub is_required: bool,
    pub help: &'static str,
}

/// An option that is given or not, and takes no value.
#[derive(Clone, Copy)]
pub(crate) struct FlagRow {
    pub name: &'static str,
    /// Its name behind one hyphen, if it has one.
    pub short: Option<char>,
    pub help: &'static str,
}

/// An option.
#[derive(Clone, Copy)]
pub(crate) enum OptionRow {
    Number(NumberRow),
    Text(TextRow),
    Flag(FlagRow),
}

/// The options of `check`, in the order of its help.
pub(crate) const CHECK: [OptionRow; 5] = [
    OptionRow::Text(CERT),
    OptionRow::Number(WINDOW),
    OptionRow::Flag(EXPLAIN),
    OptionRow::Flag(JSON),
    OptionRow::Flag(QUIET),
];

/// The options of `run`, in the order of its help.
pub(crate) const RUN: [OptionRow; 10] = [
    OptionRow::Text(LISTEN),
    OptionRow::Text(SPOOL),
    OptionRow::Number(SESSIONS),
    OptionRow::Number(HUBS),
    OptionRow::Number(WINDOW),
    OptionRow::Number(SERVER_TIMEOUT),
    OptionRow::Number(CLIENT_TIMEOUT),
    OptionRow::Number(MAX_CLIENTS),
    OptionRow::Number(ANSWER_BYTES),
    OptionRow::Text(ADMIN),
];

pub(crate) const AT: NumberRow = NumberRow {
    name: "at",
    value: "SECONDS",
    least: 0,
    most: 18_446_744_073_709_551_615,
    default: Some("0"),
    help: "The moment of the request in seconds, as start_time
has it, from 0 to 18446744073709551615",
};

pub(crate) const WINDOW: NumberRow = NumberRow {
    name: "window",
    value: "SECONDS",
    least: 0,
    most: 4_294_967_295,
    default: Some("0"),
    help: "How many seconds may lie between a delete and a
get, from 0 to 4294967295",
};

pub(crate) const SESSIONS: NumberRow = NumberRow {
    name: "sessions",
    value: "N",
    least: 1,
    most: 1_000_000_000,
    default: None,
    help: "After how many sessions the program ends,
from 1 to 1000000000; without it, after none",
};

pub(crate) const HUBS: NumberRow = NumberRow {
    name: "hubs",
    value: "N",
    least: 1,
    most: 8,
    default: Some("1"),
    help: "How many hubs run side by side,
from 1 to 8",
};

pub(crate) const SERVER_TIMEOUT: NumberRow = NumberRow {
    name: "server-timeout",
    value: "MS",
    least: 1,
    most: 3_600_000,
    default: None,
    help: "How many milliseconds a server may take,
from 1 to 3600000; without it, any time",
};

pub(crate) const CLIENT_TIMEOUT: NumberRow = NumberRow {
    name: "client-timeout",
    value: "MS",
    least: 1,
    most: 3_600_000,
    default: None,
    help: "How many milliseconds a client may send or
take nothing, from 1 to 3600000; without it, any",
};

pub(crate) const MAX_CLIENTS: NumberRow = NumberRow {
    name: "max-clients",
    value: "N",
    least: 1,
    most: 1_000_000,
    default: None,
    help: "How many clients are served at once,
from 1 to 1000000; without it, any number",
};

pub(crate) const ANSWER_BYTES: NumberRow = NumberRow {
    name: "answer-bytes",
    value: "N",
    least: 1,
    most: 1_099_511_627_776,
    default: Some("67108864"),
    help: "The most bytes of values in one request's answer,
from 1 to 1099511627776",
};

pub(crate) const CERT: TextRow = TextRow {
    name: "cert",
    value: "FILE",
    is_required: false,
    help: "A certificate in place of one that mcv makes",
};

pub(crate) const LISTEN: TextRow = TextRow {
    name: "listen",
    value: "ADDRESS",
    is_required: true,
    help: "The address at which clients connect, as HOST:PORT",
};

pub(crate) const SPOOL: TextRow = TextRow {
    name: "spool",
    value: "FILE",
    is_required: true,
    help: "The file that keeps deletes which wait for a server",
};

pub(crate) const ADMIN: TextRow = TextRow {
    name: "admin",
    value: "ADDRESS",
    is_required: false,
    help: "Where an operator asks over HTTP: GET /metrics,
GET /health, POST /drain; give an address that no
other can reach",
};

pub(crate) const EXPLAIN: FlagRow = FlagRow {
    name: "explain",
    short: None,
    help: "The finding in sentences behind its text",
};

pub(crate) const JSON: FlagRow = FlagRow {
    name: "json",
    short: None,
    help: "The verdict as JSON, or the fault in its place",
};

pub(crate) const QUIET: FlagRow = FlagRow {
    name: "quiet",
    short: Some('q'),
    help: "One line on standard error for a fault, not two",
};

pub(crate) const DOT: FlagRow = FlagRow {
    name: "dot",
    short: None,
    help: "As a graph for Graphviz in place of SVG",
};

pub(crate) const PATCH: FlagRow = FlagRow {
    name: "patch",
    short: None,
    help: "Writes the change alone, as a JSON patch (RFC 6902)",
};

pub(crate) const ALL: FlagRow = FlagRow {
    name: "all",
    short: None,
    help: "Deletes that are done, too",
};

impl NumberRow {
    /// Whether the number is in the range of the option.
    pub(crate) fn contains(&self, number: u64) -> bool
        ensures { IsTrue result ↔ ((self.now.least ≤ number) × (number ≤ self.now.most)) }
    {
        self.least <= number && number <= self.most
    }
}

/// What clap is told of an option that takes a number.
pub(crate) fn number_option<'a>(alloc: Global, row: &NumberRow) -> Arg<'a>
    ensures rule { rule_of result ≡ number_rule (option_of row.now) }
    ensures local { result.global ≡ false }
{
    let option = Arg::new(alloc, row.name)
        .long(row.name)
        .value_name(row.value)
        .value_parser(ValueParser::unsigned(row.least, row.most))
        .help(row.help);
    match row.default {
        Some(number) => option.default_value(number),
        None => option,
    }
}

/// What clap is told of an option that takes a text.
pub(crate) fn text_option<'a>(alloc: Global, row: &TextRow) -> Arg<'a>
    ensures rule { rule_of result ≡ text_row_rule row.now }
    ensures local { result.global ≡ false }
{
    Arg::new(alloc, row.name)
        .long(row.name)
        .value_name(row.value)
        .required(row.is_required)
        .help(row.help)
}

/// What clap is told of a flag.
pub(crate) fn flag<'a>(alloc: Global, row: &FlagRow) -> Arg<'a>
    ensures rule { rule_of result ≡ flag_row_rule row.now }
    ensures local { result.global ≡ false }
{
    let option = Arg::new(alloc, row.name)
        .long(row.name)
        .action(ArgAction::SetTrue)
        .help(row.help);
    match row.short {
        Some(letter) => option.short(letter),
        None => option,
    }
}

/// What clap is told of an option.
fn option<'a>(alloc: Global, row: &OptionRow) -> Arg<'a>
    ensures rule { rule_of result ≡ row_rule row.now }
    ensures local { result.global ≡ false }
{
    match row {
        OptionRow::Number(number) => number_option(alloc, number),
        OptionRow::Text(text) => text_option(alloc, text),
        OptionRow::Flag(given) => flag(alloc, given),
    }
}

/// The command with further options.
pub(crate) fn with_options<'a>(
    alloc: Global,
    command: Command<'a>,
    rows: &[OptionRow],
) -> Result<Command<'a>, AllocError>
    ensures app { IfOk result (λ c. app_of c ≡ fold with_rule (app_of command.entry) (map row_rule rows.now)) }
    ensures local { (fields_of command.entry).has_globals ≡ false → IfOk result (λ c. (fields_of c).has_globals ≡ false) }
{
    let mut command = command;
    for row in rows {
        command = command.arg(option(alloc, row))?;
    }
    Ok(command)
}
