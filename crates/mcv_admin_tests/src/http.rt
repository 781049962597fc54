//! Requests and responses, as RFC 9112 has them.

use mcv_http::{
    Method, Refusal, Request, RequestReader, Response, Status, read_request, response_bytes,
};
use std::process::Abort;
use std::test::Fail;

fn check(rt: &impl Abort, request: &[u8], wanted: Option<Result<Request, Refusal>>) {
    assert_eq!(rt; read_request(request), wanted);
}

#[test]
fn requests_are_answered(rt: HostRuntime) {
    check(
        &rt,
        b"GET /health HTTP/1.1\r\nHost: a\r\n\r\n",
        Some(Ok(Request::Health)),
    );
    check(
        &rt,
        b"GET /health?x=1 HTTP/1.1\r\n\r\n",
        Some(Ok(Request::Health)),
    );
    check(
        &rt,
        b"GET /health HTTP/1.0\r\n\r\n",
        Some(Ok(Request::Health)),
    );
    check(
        &rt,
        b"POST /drain HTTP/1.1\r\n\r\n",
        Some(Ok(Request::Drain(30))),
    );
    check(
        &rt,
        b"POST /drain?seconds=120 HTTP/1.1\r\n\r\n",
        Some(Ok(Request::Drain(120))),
    );
    check(
        &rt,
        b"POST /drain?seconds=0 HTTP/1.1\r\n\r\n",
        Some(Ok(Request::Drain(0))),
    );
}

#[test]
fn others_are_refused(rt: HostRuntime) {
    let bad = Some(Err(Refusal::BadRequest));
    check(&rt, b"POST /drain?seconds= HTTP/1.1\r\n\r\n", bad);
    check(&rt, b"POST /drain?seconds=123456 HTTP/1.1\r\n\r\n", bad);
    check(&rt, b"POST /drain?seconds=+1 HTTP/1.1\r\n\r\n", bad);
    check(&rt, b"POST /drain?second=1 HTTP/1.1\r\n\r\n", bad);
    check(&rt, b"GET /health\r\n", bad);
    check(&rt, b"\x01", bad);
    check(&rt, b"GET / HTTP/1.1\r\n\r\n", Some(Err(Refusal::NotFound)));
    check(
        &rt,
        b"GET /health/ HTTP/1.1\r\n\r\n",
        Some(Err(Refusal::NotFound)),
    );
    let get = Some(Err(Refusal::MethodNotAllowed(Method::Get)));
    check(&rt, b"POST /health HTTP/1.1\r\n\r\n", get);
    check(&rt, b"get /health HTTP/1.1\r\n\r\n", get);
    let post = Some(Err(Refusal::MethodNotAllowed(Method::Post)));
    check(&rt, b"GET /drain HTTP/1.1\r\n\r\n", post);
}

#[test]
fn a_request_comes_in_pieces(rt: HostRuntime) -> Result<(), Fail> {
    let mut reader = RequestReader::new(rt.alloc());
    assert_eq!(rt; reader.feed(b"GET /he")?, None);
    assert_eq!(rt; reader.feed(b"alth HTTP/1.1\r\nHost: a\r\n")?, None);
    assert_eq!(rt; reader.feed(b"\r\nmore")?, Some(Ok(Request::Health)));
    Ok(())
}

#[test]
fn a_long_head_is_refused(rt: HostRuntime) -> Result<(), Fail> {
    let mut reader = RequestReader::new(rt.alloc());
    assert_eq!(rt; reader.feed(b"GET /health HTTP/1.1\r\nX: ")?, None);
    let mut last = None;
    for _piece in 0..9u8 {
        last = reader.feed(&[b'x'; 1000])?;
    }
    assert_eq!(rt; last, Some(Err(Refusal::TooLong)));
    Ok(())
}

#[test]
fn bytes_are_as_the_standard_has_them(rt: HostRuntime) -> Result<(), Fail> {
    let refused = Response {
        status: Status::Refused(Refusal::MethodNotAllowed(Method::Get)),
        content_type: "text/plain",
        body: b"no\n",
    };
    let bytes = response_bytes(rt.alloc(), refused)?;
    let wanted =
        b"HTTP/1.1 405 Method Not Allowed\r\nAllow: GET\r\nContent-Type: text/plain\r\nContent-Length: 3\r\nConnection: close\r\n\r\nno\n";
    assert_eq!(rt; bytes.as_slice(), wanted.as_slice());
    Ok(())
}
