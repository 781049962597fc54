//! The bytes of a response.

ghost use Rattle.std.specs.Prelude.{◌≡◌, IfOk};
ghost use Rattle.mcv_http.specs.Response.{response_text, status_lines};

use crate::request::{Method, Refusal};
use mcv_base::push_number;
use std::alloc::{AllocError, Global};

/// What became of a request.
#[derive(Clone, Copy, Debug, PartialEq, Eq)]
pub enum Status {
    Done,
    Unavailable,
    Refused(Refusal),
}

/// What is sent back: a status, and a body of this type.
#[derive(Clone, Copy)]
pub struct Response<'a> {
    pub status: Status,
    pub content_type: &'a str,
    pub body: &'a [u8],
}

impl Status {
    /// The status line, and the methods that the path has where another was used.
    fn lines(self) -> &'static str
        ensures { result.now ≡ status_lines self }
    {
        match self {
            Status::Done => "HTTP/1.1 200 OK\r\n",
            Status::Unavailable => "HTTP/1.1 503 Service Unavailable\r\n",
            Status::Refused(Refusal::BadRequest) => "HTTP/1.1 400 Bad Request\r\n",
            Status::Refused(Refusal::NotFound) => "HTTP/1.1 404 Not Found\r\n",
            Status::Refused(Refusal::MethodNotAllowed(Method::Get)) => {
                "HTTP/1.1 405 Method Not Allowed\r\nAllow: GET\r\n"
            }
            Status::Refused(Refusal::MethodNotAllowed(Method::Post)) => {
                "HTTP/1.1 405 Method Not Allowed\r\nAllow: POST\r\n"
            }
            Status::Refused(Refusal::TooLong) => {
                "HTTP/1.1 431 Request Header Fields Too Large\r\n"
            }
        }
    }
}

/// The bytes of a response. The connection is to be closed behind them.
pub fn response_bytes(alloc: Global, response: Response<'_>) -> Result<Vec<u8>, AllocError>
    ensures { IfOk result (λ bytes. bytes.items ≡ response_text response.entry.status response.entry.content_type.now response.entry.body.now) }
{
    let mut bytes = Vec::new(alloc);
    bytes.extend_from_slice(response.status.lines().as_bytes())?;
    bytes.extend_from_slice(b"Content-Type: ")?;
    bytes.extend_from_slice(response.content_type.as_bytes())?;
    bytes.extend_from_slice(b"\r\nContent-Length: ")?;
    push_number(&mut bytes, response.body.len())?;
    bytes.extend_from_slice(b"\r\nConnection: close\r\n\r\n")?;
    bytes.extend_from_slice(response.body)?;
    Ok(bytes)
}
