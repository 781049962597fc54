//! Verdicts explained.

use mcv_show::run_check_as;
use mcv_verdict::Verdict;
use mcv_words::{CheckOptions, InRange, Window};
use std::process::Abort;

/// Deletes have the failover of gets.
pub(crate) const LOST: &str =
    r#"{"pools": {"east": {"servers": ["10.0.1.1:11211"]}, "west": {"servers": ["10.0.2.1:11211"]}},
 "route": {"type": "FailoverRoute", "children": ["PoolRoute|east", "PoolRoute|west"]}}"#;

const LOST_TEXT: &str = "lost 10.0.2.1:11211
route 0
class =
era 0
key /././!
get 0=error 1=hit
delete 0=deleted

After a delete of the key /././! is acknowledged, a later get of it can be answered by 10.0.2.1:11211, to which the delete was never sent.
So it is with each key of route 0 (/route) whose rest begins with none of its policy prefixes.
The delete is acknowledged once it is answered so:
  0 at /route/children/0: 10.0.1.1:11211 (/pools/east/servers/0) answers deleted
By then it was not sent to 10.0.2.1:11211.
The get has a reply once it is answered so:
  0 at /route/children/0: 10.0.1.1:11211 (/pools/east/servers/0) answers error
  1 at /route/children/1: 10.0.2.1:11211 (/pools/west/servers/0) answers hit
The answer at 1 can be that reply: what 10.0.2.1:11211 still has from before the delete.
";

/// Gets of one pool, by a policy with a strange prefix.
pub(crate) const COVERED: &str = r#"{"pools": {"A": {"servers": ["a:1", "<b>:1"]}},
 "route": {"type": "PrefixSelectorRoute", "policies": {"\"><script>": "PoolRoute|A"}, "wildcard": "PoolRoute|A"}}"#;

const COVERED_TEXT: &str = "covered 2
mcv-cert 1
0 = 0 1 twin 1
0 =\"><script> 0 0 twin 0
end

Compared: readable leaves 2, classes 2, eras 1; a leaf is counted once for each class and era.
";

const CERTIFICATE: &str = "mcv-cert 1
0 = 0 1 twin 1
0 =\"><script> 0 0 twin 0
end
";

const GIVEN_TEXT: &str = "covered 2

Compared: readable leaves 2, classes 2, eras 1; a leaf is counted once for each class and era.
";

const PLAIN_TEXT: &str = "covered 2
mcv-cert 1
0 = 0 1 twin 1
0 =\"><script> 0 0 twin 0
end
";

/// Gets are answered by where a migration goes an hour before its end; deletes of before its start aren't sent there.
const MIGRATION: &str = r#"{"pools": {"A": {"servers": ["a:11211"]}, "B": {"servers": ["b:11211"]}},
 "route": {"type": "MigrateRoute", "from": "PoolRoute|A", "to": "PoolRoute|B", "start_time": 1000, "interval": 3600}}"#;

const MIGRATION_TEXT: &str = "lost b:11211
route 0
class =
era 0 2
key /././!
get 1=hit
delete 0=deleted

After a delete of the key /././! is acknowledged, a later get of it can be answered by b:11211, to which the delete was never sent.
So it is with each key of route 0 (/route) whose rest begins with none of its policy prefixes.
The delete is in era 0, before the moment 1000, and the get in era 2, from the moment 4600 on, before the moment 8200: what a migration sends depends on the moment, and the two can be within 3601 seconds.
The delete is acknowledged once it is answered so:
  0 at /route/from: a:11211 (/pools/A/servers/0) answers deleted
By then it was not sent to b:11211.
The get has a reply once it is answered so:
  1 at /route/to: b:11211 (/pools/B/servers/0) answers hit
The answer at 1 can be that reply: what b:11211 still has from before the delete.
";

/// The options of an explanation within a window.
fn options_of(rt: &impl Abort, seconds: u64, explain: bool) -> CheckOptions {
    CheckOptions {
        window: Window::new(seconds).expect(rt, "a window"),
        explain,
        json: false,
        quiet: false,
    }
}

/// What is written of a configuration by this certificate, or by one that is made, is this.
fn check_written(
    rt: &(impl AllocGlobal + Abort),
    config: &str,
    certificate: Option<&[u8]>,
    options: CheckOptions,
    wanted: &str,
) {
    let mut text = Vec::new(rt.alloc());
    let mut input = config.as_bytes();
    let ended = run_check_as(rt.alloc(), &mut input, &mut text, certificate, options);
    assert!(rt; ended.is_ok());
    assert!(rt; text.as_slice() == wanted.as_bytes(), "{wanted}");
}

#[test]
fn verdicts_are_explained(rt: HostRuntime) {
    let explained = options_of(&rt, 0, true);
    check_written(&rt, LOST, None, explained, LOST_TEXT);
    check_written(&rt, COVERED, None, explained, COVERED_TEXT);
    check_written(
        &rt,
        MIGRATION,
        None,
        options_of(&rt, 3601, true),
        MIGRATION_TEXT,
    );
}

#[test]
fn given_certificates_are_not_written_again(rt: HostRuntime) {
    let given = Some(CERTIFICATE.as_bytes());
    check_written(&rt, COVERED, given, options_of(&rt, 0, true), GIVEN_TEXT);
}

#[test]
fn nothing_is_explained_unasked(rt: HostRuntime) {
    check_written(&rt, COVERED, None, options_of(&rt, 0, false), PLAIN_TEXT);
}

#[test]
fn explanations_change_no_verdict(rt: HostRuntime) {
    let mut input = LOST.as_bytes();
    let mut text = Vec::new(rt.alloc());
    let options = options_of(&rt, 0, true);
    let ended = run_check_as(rt.alloc(), &mut input, &mut text, None, options);
    assert!(rt; matches!(ended, Ok(Verdict::Lost)));
}

#[test]
fn of_faults_nothing_is_written(rt: HostRuntime) {
    let mut input = "{\"route\": \"PoolRoute|Z\"}".as_bytes();
    let mut text = Vec::new(rt.alloc());
    let options = options_of(&rt, 0, true);
    let ended = run_check_as(rt.alloc(), &mut input, &mut text, None, options);
    assert!(rt; ended.is_err());
    assert!(rt; text.is_empty());
}
