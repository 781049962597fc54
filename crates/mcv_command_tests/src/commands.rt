//! Command lines, their help, and what the program writes for an input.

ghost use Rattle.std.specs.Prelude.{None, ⊤};

use crate::devices::{HeldBytes, is_written};
use mcv_check::Accepted;
use mcv_command::{Ending, NamedFiles, Proxy, Stop, run_words};
use mcv_input::{RunFault, read_at_most};
use mcv_words::{CheckOptions, Job, LineFault, RunOptions, SpoolOptions, read_words};
use std::alloc::Global;
use std::io::Write;
use std::process::Abort;
use std::sync::Arc;

const LINES: &str = "mcv legs: legs at 0
mcv legs --at 999: legs at 999
mcv legs --at=0: legs at 0
mcv legs --at 18446744073709551615: legs at 18446744073709551615
mcv legs --at 18446744073709551616: bad line
mcv legs --at -1: bad line
mcv legs --at soon: bad line
mcv legs --at: bad line
mcv legs --at 1 --at 1: bad line
mcv --at 1 legs: bad line
mcv check: check 0
mcv check --cert a.cert: check 0 by a.cert
mcv check --window 604800: check 604800
mcv check --window=4294967295 --cert a.cert: check 4294967295 by a.cert
mcv check --window 4294967296: bad line
mcv check --window -1: bad line
mcv check --window: bad line
mcv check --window 1 --window 1: bad line
mcv legs --window 1: bad line
mcv check --cert=: check 0 by 
mcv check --cert: bad line
mcv check --cert a --cert b: bad line
mcv check a.cert: bad line
mcv check --explain: check 0, explained
mcv check --explain -q --window 60: check 60, explained, quietly
mcv check --quiet --cert a.cert: check 0 by a.cert, quietly
mcv check --json --window 60: check 60, as JSON
mcv check --explain --explain: bad line
mcv check --explain=yes: bad line
mcv check --at 1: bad line
mcv legs --cert a: bad line
mcv draw: draw
mcv draw --dot: draw a graph
mcv draw --dot=yes: bad line
mcv draw --dot --dot: bad line
mcv draw mcrouter.json: bad line
mcv draw --window 60: bad line
mcv mend: mend
mcv mend --patch: mend by a patch
mcv mend --patch=yes: bad line
mcv mend --patch --patch: bad line
mcv mend mcrouter.json: bad line
mcv mend --window 60: bad line
mcv run --listen h:1 --spool f: run h:1 f - 1 0 - - - 67108864 -
mcv run --spool=f --listen=h:1 --sessions=+7: run h:1 f 7 1 0 - - - 67108864 -
mcv run --listen h:1 --spool f --sessions 1: run h:1 f 1 1 0 - - - 67108864 -
mcv run --listen h:1 --spool f --sessions 1000000000: run h:1 f 1000000000 1 0 - - - 67108864 -
mcv run --listen h:1 --spool f --sessions 1000000001: bad line
mcv run --listen h:1 --spool f --sessions 0: bad line
mcv run --listen h:1 --spool f --sessions -1: bad line
mcv run --listen h:1 --spool f --sessions all: bad line
mcv run --listen h:1 --spool f --sessions: bad line
mcv run --listen h:1 --spool f --sessions 1 --sessions 2: bad line
mcv run --listen h:1 --spool f --hubs 1: run h:1 f - 1 0 - - - 67108864 -
mcv run --listen h:1 --spool f --hubs=8 --sessions 7: run h:1 f 7 8 0 - - - 67108864 -
mcv run --listen h:1 --spool f --hubs 9: bad line
mcv run --listen h:1 --spool f --hubs 0: bad line
mcv run --listen h:1 --spool f --hubs auto: bad line
mcv run --listen h:1 --spool f --hubs: bad line
mcv run --listen h:1 --spool f --hubs 1 --hubs 2: bad line
mcv run --listen h:1 --spool f --server-timeout 200: run h:1 f - 1 0 200 - - 67108864 -
mcv run --listen h:1 --spool f --server-timeout=1 --client-timeout=3600000: run h:1 f - 1 0 1 3600000 - 67108864 -
mcv run --listen h:1 --spool f --client-timeout 200: run h:1 f - 1 0 - 200 - 67108864 -
mcv run --listen h:1 --spool f --server-timeout 0: bad line
mcv run --listen h:1 --spool f --server-timeout 3600001: bad line
mcv run --listen h:1 --spool f --server-timeout 1s: bad line
mcv run --listen h:1 --spool f --server-timeout: bad line
mcv run --listen h:1 --spool f --client-timeout 0: bad line
mcv run --listen h:1 --spool f --client-timeout 3600001: bad line
mcv run --listen h:1 --spool f --client-timeout 1 --client-timeout 1: bad line
mcv run --listen h:1 --spool f --max-clients 1000000: run h:1 f - 1 0 - - 1000000 67108864 -
mcv run --listen h:1 --spool f --max-clients 0: bad line
mcv run --listen h:1 --spool f --max-clients 1000001: bad line
mcv run --listen h:1 --spool f --answer-bytes 1: run h:1 f - 1 0 - - - 1 -
mcv run --listen h:1 --spool f --answer-bytes=1099511627776: run h:1 f - 1 0 - - - 1099511627776 -
mcv run --listen h:1 --spool f --answer-bytes 0: bad line
mcv run --listen h:1 --spool f --answer-bytes 1099511627777: bad line
mcv run --listen h:1 --spool f --answer-bytes 64M: bad line
mcv run --listen h:1 --spool f --answer-bytes: bad line
mcv run --listen h:1 --spool f --answer-bytes 1 --answer-bytes 1: bad line
mcv run --listen h:1 --spool f --admin a:2: run h:1 f - 1 0 - - - 67108864 a:2
mcv run --listen h:1 --spool f --admin a:2 --admin a:2: bad line
mcv run --listen= --spool=: run   - 1 0 - - - 67108864 -
mcv run --listen h:1 --spool f --window 60: run h:1 f - 1 60 - - - 67108864 -
mcv run --listen h:1 --spool f --window 4294967296: bad line
mcv run: bad line
mcv run --listen h:1: bad line
mcv run --spool f: bad line
mcv run --sessions 1: bad line
mcv run --listen --spool f: bad line
mcv run --listen h:1 --listen h:2 --spool f: bad line
mcv run h:1 --listen h:1 --spool f: bad line
mcv run --at 1 --listen h:1 --spool f: bad line
mcv check --listen h:1: bad line
mcv spool f: spool f
mcv spool f --all: spool f all
mcv spool --all f: spool f all
mcv spool -- --all: spool --all
mcv spool: bad line
mcv spool --all: bad line
mcv spool f g: bad line
mcv spool f --all --all: bad line
mcv spool f --all=yes: bad line
mcv spool --file f: bad line
mcv spool --spool f: bad line
mcv: bad line
mcv serve: bad line
mcv legs x: bad line
mcv legs legs: bad line
mcv help serve: bad line
mcv --help: help
mcv -h: help
mcv help: help
mcv help legs: help
mcv check --help: help
mcv help check: help
mcv legs --help: help
mcv draw --help: help
mcv help draw: help
mcv mend --help: help
mcv help mend: help
mcv run --help: help
mcv run -h: help
mcv help run: help
mcv spool --help: help
mcv help spool: help
mcv legs -h: help
mcv --version: version
mcv -V: version
mcv legs --version: bad line
mcv version: bad line";

/// A number, or `-` for none.
fn number_text(rt: &(impl AllocGlobal + Abort), number: Option<u64>) -> String {
    let text = match number {
        Some(number) => format!(in rt.alloc(); "{number}"),
        None => format!(in rt.alloc(); "-"),
    };
    text.expect(rt, "memory")
}

/// What `run` is asked for.
fn order_text(rt: &(impl AllocGlobal + Abort), options: RunOptions<'_>) -> String {
    let RunOptions {
        listen,
        spool,
        admin,
        settings,
    } = options;
    let admin = admin.unwrap_or("-");
    let sessions = number_text(rt, settings.sessions.map(|sessions| sessions.count));
    let hubs = settings.hubs.count;
    let window = settings.window.seconds;
    let server = number_text(rt, settings.server_timeout.map(|timeout| timeout.millis));
    let client = number_text(rt, settings.client_timeout.map(|timeout| timeout.millis));
    let clients = number_text(rt, settings.max_clients.map(|clients| clients.count));
    let bytes = settings.answer_bytes.bytes;
    let text = format!(in rt.alloc();
        "{listen} {spool} {sessions} {hubs} {window} {server} {client} {clients} {bytes} {admin}"
    );
    text.expect(rt, "memory")
}

fn job_text(rt: &(impl AllocGlobal + Abort), job: Job<'_>) -> String {
    let text = match job {
        Job::Legs { at } => format!(in rt.alloc(); "legs at {}", at.0),
        Job::Check {
            cert: None,
            options,
        } => {
            let window = options.window.seconds;
            format!(in rt.alloc(); "check {window}{}", options_text(options))
        }
        Job::Check {
            cert: Some(name),
            options,
        } => {
            let window = options.window.seconds;
            format!(in rt.alloc(); "check {window} by {name}{}", options_text(options))
        }
        Job::Draw { dot: false } => format!(in rt.alloc(); "draw"),
        Job::Draw { dot: true } => format!(in rt.alloc(); "draw a graph"),
        Job::Mend { patch: false } => format!(in rt.alloc(); "mend"),
        Job::Mend { patch: true } => format!(in rt.alloc(); "mend by a patch"),
        Job::Run(options) => {
            let order = order_text(rt, options);
            format!(in rt.alloc(); "run {order}")
        }
        Job::Spool(SpoolOptions { file, all }) => {
            let more = if all { " all" } else { "" };
            format!(in rt.alloc(); "spool {file}{more}")
        }
    };
    text.expect(rt, "memory")
}

fn options_text(options: CheckOptions) -> &'static str {
    match (options.explain, options.json, options.quiet) {
        (false, false, false) => "",
        (true, false, false) => ", explained",
        (false, false, true) => ", quietly",
        (true, false, true) => ", explained, quietly",
        (false, true, false) => ", as JSON",
        (_, true, _) => ", otherwise",
    }
}

fn fault_text(fault: &LineFault) -> &'static str {
    match fault {
        LineFault::BadLine => "bad line",
        LineFault::Memory => "memory",
        LineFault::Help(_) => "help",
        LineFault::Version => "version",
    }
}

/// Whether the words ask for this.
fn is_asked(rt: &(impl AllocGlobal + Abort), words: &[&str], expected: &str) -> bool {
    match read_words(rt.alloc(), words) {
        Ok(job) => job_text(rt, job).as_str() == expected,
        Err(fault) => fault_text(&fault) == expected,
    }
}

fn check_line(rt: &(impl AllocGlobal + Abort), case: &str) {
    let (line, expected) = case.split_once(": ").expect(rt, "a case");
    let words: Vec<&str> = line.split(' ').collect(rt.alloc()).expect(rt, "memory");
    assert!(rt; is_asked(rt, words.as_slice(), expected), "{case}");
}

#[test]
fn command_lines_ask_for_their_job(rt: HostRuntime) {
    for case in LINES.lines() {
        check_line(&rt, case);
    }
}

/// Files of which one is there, `a.cert`, which is a spool's too.
#[derive(Drop)]
struct OneFile<'a> {
    held: &'a [u8],
}

impl<'a> NamedFiles for OneFile<'a> {
    ghost held = { λ _ _. None };

    fn read_named(&self, alloc: Global, name: &str, limit: u64) -> Result<Vec<u8>, RunFault> {
        if name != "a.cert" {
            return Err(RunFault::Device);
        }
        let mut held = self.held;
        read_at_most(alloc, &mut held, limit)
    }

    type View = HeldBytes<'a>;

    fn view(&self, name: &str) -> Result<HeldBytes<'a>, RunFault> {
        if name != "a.cert" {
            return Err(RunFault::Device);
        }
        Ok(HeldBytes { bytes: self.held })
    }
}

/// A proxy that writes what it is to serve, or fails, by the address.
#[derive(Drop)]
struct Listed;

impl Proxy for Listed {
    ghost serves = { λ _ _ _ _ _. ⊤ };

    fn serve<W: Write>(
        &self,
        alloc: Global,
        accepted: Arc<Accepted>,
        options: RunOptions<'_>,
        out: &mut W,
    ) -> Result<(), RunFault> {
        let RunOptions {
            listen,
            spool,
            settings,
            ..
        } = options;
        if listen == "full:1" {
            return Err(RunFault::Memory);
        }
        let servers = accepted.routes().servers().len();
        let sessions = settings.sessions.map_or(0, |sessions| sessions.count);
        let hubs = settings.hubs.count;
        let millis = settings.server_timeout.map_or(0, |timeout| timeout.millis);
        let Ok(line) = format!(in alloc;
            "{listen} {spool} {sessions} {hubs} {millis} of {servers}\n"
        ) else {
            return Err(RunFault::Memory);
        };
        match out.write_all(line.as_bytes()) {
            Ok(()) if listen != "busy:1" => Ok(()),
            _ => Err(RunFault::Device),
        }
    }
}

/// How the program ends on the words, the file and the input.
pub(crate) fn ran<W: Write>(
    alloc: Global,
    words: &[&str],
    file: &[u8],
    input: &str,
    writer: &mut W,
) -> Result<Ending, Stop> {
    let files = OneFile { held: file };
    run_words(alloc, words, &files, &Listed, &mut input.as_bytes(), writer)
}

/// What the program writes on words that ask for help.
fn help(rt: &(impl AllocGlobal + Abort), words: &[&str]) -> String {
    let mut written = Vec::new(rt.alloc());
    let ended = ran(rt.alloc(), words, b"", "", &mut written);
    assert!(rt; ended.is_ok(), "no help");
    String::from_utf8(written).expect(rt, "a text")
}

#[test]
fn the_version_is_one_line(rt: HostRuntime) {
    for word in ["--version", "-V"] {
        let text = help(&rt, &["mcv", word]);
        assert!(rt; text.as_str() == "mcv 1\n", "{text}");
    }
}

/// The help that the words ask for has each of these parts.
fn check_parts(rt: &(impl AllocGlobal + Abort), words: &[&str], parts: &[&str]) {
    let text = help(rt, words);
    for part in parts {
        assert!(rt; text.as_str().contains(*part), "no {part} in {text}");
    }
}

/// The help that the words ask for has 80 columns.
fn check_columns(rt: &(impl AllocGlobal + Abort), words: &[&str]) {
    let text = help(rt, words);
    for line in text.as_str().lines() {
        assert!(rt; line.len() <= 80, "{line}");
    }
}

const MAIN_PARTS: &[&str] = &[
    "Usage: mcv <COMMAND>",
    "mcrouter",
    "  check  ",
    "  draw  ",
    "  legs  ",
    "  mend  ",
    "  run  ",
    "  spool  ",
    "\n  mcv check < mcrouter.json\n",
    "\n  mcv draw < mcrouter.json > tree.svg\n",
    "\n  mcv mend < mcrouter.json > mended.json\n",
    "\n  (echo 'delete a'; cat mcrouter.json) | mcv legs\n",
    "\n  mcv run --listen 127.0.0.1:5000 --spool mcv.spool --server-timeout 1000 \\\n    < mcrouter.json\n",
    "Exit status:",
];

const CHECK_PARTS: &[&str] = &[
    "Usage: mcv check [--cert FILE] [--window SECONDS] [--explain] [--json]\n                 [-q] < FILE",
    "--explain",
    "--json",
    "-q, --quiet",
    "--cert <FILE>",
    "--window <SECONDS>",
    "from 0 to 4294967295 [default: 0]",
    "\n  covered 1\n",
    "\n  lost b:11211\n",
    "\n  key /././!\n",
    "\n  get 0=miss 1=hit\n",
    "mcv check --cert mcrouter.cert < mcrouter.json",
    "mcv: certificate text NUMBER line LINE",
    "mcv: certificate fault NUMBER",
    "mcv: configuration NUMBER at PATH",
    "\n  all I D0 D1 .. ",
];

const LEGS_PARTS: &[&str] = &[
    "Usage: mcv legs [--at SECONDS] < FILE",
    "--at <SECONDS>",
    "[default: 0]",
    "\n  delete a\n",
    "\n  reply none\n",
    "mcv: no route",
    "mcv: configuration NUMBER at PATH",
];

const DRAW_PARTS: &[&str] = &[
    "Usage: mcv draw [--dot] < FILE",
    "--dot ",
    "\n  mcv draw < mcrouter.json > tree.svg\n",
    "\n  mcv draw --dot < mcrouter.json | dot -Tpdf > tree.pdf\n",
    "\n  [LOST]  ",
    "mcv: configuration NUMBER at PATH",
];

const MEND_PARTS: &[&str] = &[
    "Usage: mcv mend [--patch] < FILE",
    "--patch ",
    "\n  mcv mend < mcrouter.json > mended.json && diff mcrouter.json mended.json\n",
    "\n  3  nothing is written",
    "mcv: configuration NUMBER at PATH",
    "mcv: mended configuration 7 at PATH",
    "mcv: no change found",
];

#[test]
fn help_names_input_and_exit_statuses(rt: HostRuntime) {
    check_parts(&rt, &["mcv", "--help"], MAIN_PARTS);
    check_parts(&rt, &["mcv", "check", "--help"], CHECK_PARTS);
    check_parts(&rt, &["mcv", "legs", "--help"], LEGS_PARTS);
    check_parts(&rt, &["mcv", "draw", "--help"], DRAW_PARTS);
    check_parts(&rt, &["mcv", "mend", "--help"], MEND_PARTS);
    check_parts(&rt, &["mcv", "spool", "--help"], SPOOL_PARTS);
}

const SPOOL_PARTS: &[&str] = &[
    "Usage: mcv spool FILE [--all]",
    "\n  0 pending a:11211 a\n",
    "\n  records 3 pending 1\n",
    "mcv: slot NUMBER of the spool is damaged",
];

const RUN_PARTS: &[&str] = &[
    "Usage: mcv run --listen ADDRESS --spool FILE [OPTIONS] < FILE",
    "--window <SECONDS>",
    "--listen <ADDRESS>",
    "--spool <FILE>",
    "--sessions <N>",
    "--hubs <N>",
    "[default: 1]",
    "--server-timeout <MS>",
    "--client-timeout <MS>",
    "--max-clients <N>",
    "--answer-bytes <N>",
    "[default: 67108864]",
    "--admin <ADDRESS>",
    "the keys whose hash names\nit",
    "\n  mcv run --listen 127.0.0.1:5000 --spool mcv.spool --server-timeout 1000 \\\n    < mcrouter.json\n",
    "\n  mcv listening 127.0.0.1:5000 pending 0\n",
    "\n  mcv closed calls 12\n",
    "\nExit status:\n  0  ended, or help was asked for\n  1  bad command line\n",
    "\n  2  the configuration is refused\n  3  the configuration can lose a delete\n  4  ",
    "mcv: configuration NUMBER at PATH",
];

#[test]
fn help_of_run_names_its_options_lines_and_statuses(rt: HostRuntime) {
    check_parts(&rt, &["mcv", "run", "--help"], RUN_PARTS);
    check_columns(&rt, &["mcv", "run", "--help"]);
    check_columns(&rt, &["mcv", "--help"]);
}

const HANDLES: &str =
    "PoolRoute NullRoute ErrorRoute AllSyncRoute AllInitialRoute AllAsyncRoute FailoverRoute MissFailoverRoute WarmUpRoute MigrateRoute PrefixSelectorRoute OperationSelectorRoute";

#[test]
fn help_names_each_handle_within_eighty_columns(rt: HostRuntime) {
    let text = help(&rt, &["mcv", "legs", "--help"]);
    for handle in HANDLES.split(' ') {
        assert!(rt; text.as_str().contains(handle), "{handle}");
    }
    check_columns(&rt, &["mcv", "legs", "--help"]);
    check_columns(&rt, &["mcv", "check", "--help"]);
    check_columns(&rt, &["mcv", "draw", "--help"]);
    check_columns(&rt, &["mcv", "mend", "--help"]);
    check_columns(&rt, &["mcv", "spool", "--help"]);
}

const POOL: &str = "{\"pools\":{\"A\":{\"servers\":[\"a:11211\"]}},\"route\":\"PoolRoute|A\"}";

/// What the program says on the words, the file and the input, and its exit status.
fn said_by(
    rt: &(impl AllocGlobal + Abort),
    words: &[&str],
    file: &[u8],
    input: &str,
) -> (String, u8) {
    let mut written = Vec::new(rt.alloc());
    match ran(rt.alloc(), words, file, input, &mut written) {
        Ok(ending) => (
            String::from_utf8(written).expect(rt, "a text"),
            ending.status(),
        ),
        Err(stop) => (stop_text(rt, &stop), stop.status()),
    }
}

fn stop_text(rt: &(impl AllocGlobal + Abort), stop: &Stop) -> String {
    format!(in rt.alloc(); "{stop}").expect(rt, "memory")
}

/// The program says this on the words and the input, and ends with this status.
fn check_said(
    rt: &(impl AllocGlobal + Abort),
    words: &[&str],
    input: &str,
    expected: &str,
    status: u8,
) {
    let (text, found) = said_by(rt, words, b"", input);
    assert!(rt;
        is_written(text.as_str(), expected, found, status),
        "{found} {text}"
    );
}

fn check_legs(
    rt: &(impl AllocGlobal + Abort),
    line: &str,
    config: &str,
    expected: &str,
    status: u8,
) {
    let input = format!(in rt.alloc(); "{line}{config}").expect(rt, "memory");
    check_said(rt, &["mcv", "legs"], input.as_str(), expected, status);
}

#[test]
fn each_input_is_answered(rt: HostRuntime) {
    check_legs(
        &rt,
        "delete a\n",
        POOL,
        "leg - a:11211 plain\nreply none\n",
        0,
    );
    check_legs(&rt, "delete\n", POOL, "mcv: bad request line", 1);
    check_legs(&rt, "delete a\n", "{", "mcv: configuration 1 at .", 2);
    check_legs(&rt, "delete /x/y/a\n", POOL, "mcv: no route", 2);
}

const MIGRATION: &str = "delete a
{\"pools\":{\"A\":{\"servers\":[\"a:11211\"]},\"B\":{\"servers\":[\"b:11211\"]}},
 \"route\":{\"type\":\"MigrateRoute\",\"from\":\"PoolRoute|A\",\"to\":\"PoolRoute|B\",
          \"start_time\":1000,\"interval\":3600}}";

/// A moment, and how many legs a delete has then on the side migrated from and on the other.
const MOMENTS: &str = "0 1 0
999 1 0
1000 1 1
8199 1 1
8200 0 1
18446744073709551615 0 1";

/// What is written where so many legs go to the two sides.
fn migrated(rt: &(impl AllocGlobal + Abort), counts: &str) -> String {
    let from = if counts.starts_with("1") {
        "leg 0 a:11211 plain\n"
    } else {
        ""
    };
    let to = if counts.ends_with("1") {
        "leg 1 b:11211 plain\n"
    } else {
        ""
    };
    format!(in rt.alloc(); "{from}{to}reply none\n").expect(rt, "memory")
}

fn check_moment(rt: &(impl AllocGlobal + Abort), case: &str) {
    let (at, counts) = case.split_once(' ').expect(rt, "a case");
    let expected = migrated(rt, counts);
    check_said(
        rt,
        &["mcv", "legs", "--at", at],
        MIGRATION,
        expected.as_str(),
        0,
    );
}

#[test]
fn a_migration_goes_by_the_moment(rt: HostRuntime) {
    for case in MOMENTS.lines() {
        check_moment(&rt, case);
    }
}

/// The program stops on the word where it can write four bytes.
fn check_stop(rt: &(impl AllocGlobal + Abort), word: &str, expected: &str, status: u8) {
    let mut room = [0; 4];
    let mut writer = room.as_mut_slice();
    let stop = ran(rt.alloc(), &["mcv", word], b"", "", &mut writer);
    let stop = stop.expect_err(rt, "a stop");
    let text = stop_text(rt, &stop);
    assert!(rt;
        is_written(text.as_str(), expected, stop.status(), status),
        "{text}"
    );
}

#[test]
fn bad_words_and_full_devices_stop_the_program(rt: HostRuntime) {
    check_stop(&rt, "x", "mcv: bad command line", 1);
    check_stop(&rt, "help", "mcv: device failed", 4);
}

const WARM_UP: &str =
    "{\"pools\":{\"A\":{\"servers\":[\"a:11211\"]},\"B\":{\"servers\":[\"b:11211\"]}},\"route\":{\"type\":\"WarmUpRoute\",\"cold\":\"PoolRoute|A\",\"warm\":\"PoolRoute|B\"}}";

const COVERED: &str = "covered 1\nmcv-cert 1\n0 = 0 - twin -\nend\n";

const LOST: &str =
    "lost b:11211\nroute 0\nclass =\nera 0\nkey /././!\nget 0=miss 1=hit\ndelete 0=deleted\n";

#[test]
fn configurations_are_judged(rt: HostRuntime) {
    check_said(&rt, &["mcv", "check"], POOL, COVERED, 0);
    check_said(&rt, &["mcv", "check"], WARM_UP, LOST, 3);
    check_said(&rt, &["mcv", "check"], "{", "mcv: configuration 1 at .", 2);
}

/// The finding's legs are thick; a delete goes to the cold side, both can be read, and the warm one is lost.
const WARM_UP_GRAPH: &str = "digraph mcv {
rankdir=LR;
node [shape=box fontname=monospace];
\"r0p-\" [label=\"WarmUpRoute exptime 0 [delete]\" color=\"#b3261e\" style=dashed penwidth=4];
\"r0p0\" [label=\"PoolRoute a:11211 [delete] [read]\" color=\"#b3261e\" style=dashed penwidth=4];
\"r0p-\" -> \"r0p0\" [label=\"cold\" color=\"#b3261e\" style=dashed penwidth=4];
\"r0p1\" [label=\"PoolRoute b:11211 [read] [LOST]\" color=\"#1a56c4\" penwidth=4 fontcolor=\"#b3261e\"];
\"r0p-\" -> \"r0p1\" [label=\"warm\" color=\"#1a56c4\" penwidth=4 fontcolor=\"#b3261e\"];
}
";

/// A handle alone, and the verdict below it.
const NOTHING_DRAWN: &str = "\
<svg xmlns=\"http://www.w3.org/2000/svg\" width=\"120\" height=\"88\" font-family=\"monospace\" font-size=\"13\">
<rect width=\"100%\" height=\"100%\" fill=\"#ffffff\"/>
<g id=\"r0p-\">
<rect x=\"16\" y=\"16\" width=\"88\" height=\"26\" rx=\"4\" fill=\"#ffffff\" stroke=\"#555555\" stroke-width=\"1\"/>
<text x=\"24\" y=\"34\">NullRoute</text>
</g>
<text x=\"16\" y=\"70\">covered 0</text>
</svg>
";

#[test]
fn configurations_are_drawn(rt: HostRuntime) {
    check_said(&rt, &["mcv", "draw", "--dot"], WARM_UP, WARM_UP_GRAPH, 0);
    let config = "{\"route\": \"NullRoute\"}";
    check_said(&rt, &["mcv", "draw"], config, NOTHING_DRAWN, 0);
    check_said(&rt, &["mcv", "draw"], "{", "mcv: configuration 1 at .", 2);
    check_stop(&rt, "draw", "mcv: configuration 1 at .", 2);
}

const WARM_UP_MENDED: &str =
    "{\"pools\":{\"A\":{\"servers\":[\"a:11211\"]},\"B\":{\"servers\":[\"b:11211\"]}},\"route\":{\"type\": \"OperationSelectorRoute\", \"operation_policies\": {\"delete\": {\"type\": \"AllSyncRoute\", \"children\": [\"PoolRoute|A\", \"PoolRoute|B\"]}}, \"default_policy\": {\"type\":\"WarmUpRoute\",\"cold\":\"PoolRoute|A\",\"warm\":\"PoolRoute|B\"}}}";

/// The deepest route that is read, of which deletes lack a leg.
const DEEPEST: &str =
    "{\"pools\":{\"C\":{\"servers\":[\"a:11211\",\"b:11211\"]}},\"route\":\"AllSyncRoute|AllSyncRoute|AllSyncRoute|AllSyncRoute|AllSyncRoute|AllSyncRoute|AllSyncRoute|AllSyncRoute|AllSyncRoute|AllSyncRoute|AllSyncRoute|AllSyncRoute|AllSyncRoute|AllSyncRoute|AllSyncRoute|AllSyncRoute|AllSyncRoute|AllSyncRoute|AllSyncRoute|AllSyncRoute|AllSyncRoute|AllSyncRoute|AllSyncRoute|AllSyncRoute|AllSyncRoute|AllSyncRoute|AllSyncRoute|AllSyncRoute|AllSyncRoute|FailoverRoute|Pool|C\"}";

const WARM_UP_PATCH: &str =
    "[{\"op\":\"replace\",\"path\":\"/route\",\"value\":{\"default_policy\":{\"cold\":\"PoolRoute|A\",\"type\":\"WarmUpRoute\",\"warm\":\"PoolRoute|B\"},\"operation_policies\":{\"delete\":{\"children\":[\"PoolRoute|A\",\"PoolRoute|B\"],\"type\":\"AllSyncRoute\"}},\"type\":\"OperationSelectorRoute\"}}]\n";

const TOO_DEEP: &str = "mcv: mended configuration 7 at /route/operation_policies/delete/children/0";

#[test]
fn configurations_are_mended(rt: HostRuntime) {
    check_said(&rt, &["mcv", "mend"], WARM_UP, WARM_UP_MENDED, 0);
    check_said(&rt, &["mcv", "mend"], POOL, POOL, 0);
    check_said(&rt, &["mcv", "mend"], DEEPEST, TOO_DEEP, 3);
    check_said(&rt, &["mcv", "mend"], "{", "mcv: configuration 1 at .", 2);
    check_stop(&rt, "mend", "mcv: configuration 1 at .", 2);
}

#[test]
fn patches_are_written(rt: HostRuntime) {
    let words = ["mcv", "mend", "--patch"];
    check_said(&rt, &words, WARM_UP, WARM_UP_PATCH, 0);
    check_said(&rt, &words, POOL, "[]\n", 0);
    check_said(&rt, &words, DEEPEST, TOO_DEEP, 3);
    check_said(&rt, &words, "{", "mcv: configuration 1 at .", 2);
}

/// What the program says and does where it is to serve three sessions at an address by two hubs.
fn check_run(
    rt: &(impl AllocGlobal + Abort),
    address: &str,
    config: &str,
    expected: &str,
    status: u8,
) {
    let words = [
        "mcv",
        "run",
        "--listen",
        address,
        "--spool",
        "f",
        "--sessions",
        "3",
        "--hubs",
        "2",
        "--server-timeout",
        "200",
    ];
    check_said(rt, &words, config, expected, status);
}

#[test]
fn a_run_serves_what_is_covered(rt: HostRuntime) {
    check_run(&rt, "h:1", POOL, "h:1 f 3 2 200 of 1\n", 0);
    check_run(&rt, "h:1", WARM_UP, LOST, 3);
    check_run(&rt, "busy:1", WARM_UP, LOST, 3);
    check_run(&rt, "busy:1", "{", "mcv: configuration 1 at .", 2);
    check_run(&rt, "busy:1", POOL, "mcv: device failed", 4);
    check_run(&rt, "full:1", POOL, "mcv: out of memory", 4);
}

/// A certificate, with semicolons between its lines, and what the program says of it for a pool of one server.
const CERTIFICATES: &str = "\
mcv-cert 1;0 = 0 - twin -;end;: covered 1;: 0
mcv-cert 1;0 = 0 - twin -;: mcv: certificate text 1 line 3: 5
mcv-cert 1;end;: mcv: certificate fault 1: 5
mcv-cert 1;0 = 0 - never;end;: mcv: certificate fault 5: 5";

fn check_certificate(rt: &(impl AllocGlobal + Abort), case: &str) {
    let (certificate, more) = case.split_once(": ").expect(rt, "a case");
    let (expected, status) = more.rsplit_once(": ").expect(rt, "a case");
    let file = certificate
        .replace(rt.alloc(), ";", "\n")
        .expect(rt, "memory");
    let expected = expected.replace(rt.alloc(), ";", "\n").expect(rt, "memory");
    let status = status.parse::<u8>().expect(rt, "a status");
    let words = ["mcv", "check", "--cert", "a.cert"];
    let (text, found) = said_by(rt, &words, file.as_bytes(), POOL);
    assert!(rt;
        is_written(text.as_str(), expected.as_str(), found, status),
        "{found} {text}"
    );
}

#[test]
fn certificates_of_files_are_judged(rt: HostRuntime) {
    for case in CERTIFICATES.lines() {
        check_certificate(&rt, case);
    }
    let words = ["mcv", "check", "--cert", "b.cert"];
    check_said(&rt, &words, "{", "mcv: device failed", 4);
}
