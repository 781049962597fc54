//! One request over a connection.

ghost use Rattle.std.specs.Prelude.{⊤};

use mcv_admin::{Health, Panel, serve_request};
use mcv_metrics::{ClientCounts, Snapshot, SpoolCounts, WordCounts};
use std::alloc::{AllocError, Global};
use std::process::Abort;
use std::test::Fail;

/// A panel that keeps the last drain that was asked for.
#[derive(Drop)]
struct Kept {
    health: Health,
    drain: Option<u64>,
}

impl Panel for Kept {
    ghost has_counted = { λ _ _. ⊤ };

    ghost is_in = { λ _ _. ⊤ };

    ghost drains = { λ _ _ _. ⊤ };

    fn snapshot(&self, alloc: Global) -> Result<Snapshot, AllocError> {
        Ok(Snapshot {
            words: WordCounts {
                calls: Vec::new(alloc),
                replies: Vec::new(alloc),
                refusals: Vec::new(alloc),
            },
            servers: Vec::new(alloc),
            spool: SpoolCounts::default(),
            hubs: Vec::new(alloc),
            clients: ClientCounts::default(),
            uptime: 60,
            version: 1,
        })
    }

    fn health(&self) -> Health {
        self.health
    }

    fn drain(&mut self, seconds: u64) {
        self.drain = Some(seconds);
    }
}

/// What is written to a request, and the drain that it asks for.
fn served(
    rt: &(impl AllocGlobal + Abort),
    health: Health,
    request: &[u8],
) -> (Vec<u8>, Option<u64>) {
    let alloc: Global = rt.alloc();
    let mut reader = request;
    let mut written = Vec::new(alloc);
    let mut panel = Kept {
        health,
        drain: None,
    };
    serve_request(alloc, &mut reader, &mut written, &mut panel).expect(rt, "a response");
    (written, panel.drain)
}

fn check(
    rt: &(impl AllocGlobal + Abort),
    health: Health,
    request: &[u8],
    wanted: &str,
    drain: Option<u64>,
) {
    let (written, asked) = served(rt, health, request);
    assert_eq!(rt; written.as_slice(), wanted.as_bytes());
    assert_eq!(rt; asked, drain);
}

#[test]
fn health_is_said(rt: HostRuntime) {
    check(
        &rt,
        Health::Serving,
        b"GET /health HTTP/1.1\r\nHost: a\r\n\r\n",
        "HTTP/1.1 200 OK\r\nContent-Type: text/plain; charset=utf-8\r\nContent-Length: 3\r\nConnection: close\r\n\r\nok\n",
        None,
    );
    check(
        &rt,
        Health::Draining,
        b"GET /health HTTP/1.1\r\n\r\n",
        "HTTP/1.1 503 Service Unavailable\r\nContent-Type: text/plain; charset=utf-8\r\nContent-Length: 9\r\nConnection: close\r\n\r\ndraining\n",
        None,
    );
    check(
        &rt,
        Health::Refusing,
        b"GET /health HTTP/1.1\r\n\r\n",
        "HTTP/1.1 503 Service Unavailable\r\nContent-Type: text/plain; charset=utf-8\r\nContent-Length: 26\r\nConnection: close\r\n\r\nthe spool refuses records\n",
        None,
    );
}

/// The length is that of the lines that `metrics.rt` looks at, where there is no server.
#[test]
fn what_was_counted_is_said(rt: HostRuntime) -> Result<(), Fail> {
    let (written, asked) = served(&rt, Health::Draining, b"GET /metrics HTTP/1.1\r\n\r\n");
    let text = std::str::from_utf8(written.as_slice())?;
    let head =
        "HTTP/1.1 200 OK\r\nContent-Type: text/plain; version=0.0.4; charset=utf-8\r\nContent-Length: ";
    assert!(rt; text.starts_with(head), "{text}");
    assert!(rt;
        text.ends_with("\nmcv_build_info{version=\"1\"} 1\n"),
        "{text}"
    );
    assert_eq!(rt; asked, None);
    Ok(())
}

#[test]
fn a_drain_is_asked_for_once(rt: HostRuntime) {
    check(
        &rt,
        Health::Serving,
        b"POST /drain?seconds=5 HTTP/1.1\r\n\r\nPOST /drain HTTP/1.1\r\n\r\n",
        "HTTP/1.1 200 OK\r\nContent-Type: text/plain; charset=utf-8\r\nContent-Length: 9\r\nConnection: close\r\n\r\ndraining\n",
        Some(5),
    );
}

#[test]
fn nothing_is_said_of_a_part(rt: HostRuntime) {
    check(&rt, Health::Serving, b"POST /drain HTTP/1.1\r\n", "", None);
    check(&rt, Health::Serving, b"", "", None);
}

#[test]
fn what_is_no_request_is_refused(rt: HostRuntime) -> Result<(), Fail> {
    check(
        &rt,
        Health::Serving,
        b"GET /drain HTTP/1.1\r\n\r\n",
        "HTTP/1.1 405 Method Not Allowed\r\nAllow: POST\r\nContent-Type: text/plain; charset=utf-8\r\nContent-Length: 19\r\nConnection: close\r\n\r\nmethod not allowed\n",
        None,
    );
    let mut long = Vec::from_slice(rt.alloc(), b"GET /health HTTP/1.1\r\nX: ")?;
    long.resize(9000, b'x')?;
    check(
        &rt,
        Health::Serving,
        long.as_slice(),
        "HTTP/1.1 431 Request Header Fields Too Large\r\nContent-Type: text/plain; charset=utf-8\r\nContent-Length: 9\r\nConnection: close\r\n\r\ntoo long\n",
        None,
    );
    Ok(())
}
