//! The request line at the head of an input, and the configuration behind it.

ghost use Rattle.std.specs.Prelude.{MatchOption};
ghost use Rattle.mcv_legs.specs.Request.{Asks, HaveOneReading, IsNoRequest};

use mcv_base::{Op, Prefix, Rest, split_key};
use memchr::memchr;

/// What an input asks.
#[derive(Drop)]
pub struct Asked<'a> {
    pub op: Op,
    pub prefix: Prefix,
    pub rest: Rest,
    /// All behind the request line.
    pub configuration: &'a [u8],
}

/// What the input asks, if it begins with a request line. It takes no memory.
pub fn read_request(input: &[u8]) -> Option<Asked<'_>>
    ensures { MatchOption result (IsNoRequest input.now) (λ asked. Asks input.now asked.op asked.prefix asked.rest asked.configuration.now) }
{
    let end = memchr(b'\n', input)?;
    let line = &input[..end];
    let space = memchr(b' ', line)?;
    let op = Op::named(&line[..space])?;
    match split_key(&line[space + 1..]) {
        Ok((prefix, rest)) => {
            prove!(!rest.as_bytes().is_empty());
            Some(Asked {
                op,
                prefix,
                rest,
                configuration: &input[end + 1..],
            })
        }
        Err(_) => None,
    }
}

/// An input has one reading.
pub fn requests_have_one_reading()
    ensures { HaveOneReading }
{}
