//! What a method and a target ask for.

ghost use Rattle.std.specs.Prelude.{◌≡◌, ◌<◌, IfSome, length, position};
ghost use Rattle.std.specs.List.{list_all};
ghost use Rattle.std.specs.Char.{is_ascii_digit};
ghost use Rattle.mcv_base.specs.Server.{number};
ghost use Rattle.mcv_http.specs.Request.{answer, answer_at, is_question_mark, method_of, method_word, request_for, resource_at, seconds_of, short_number};

use mcv_base::begins_with;

/// The methods of which one is allowed at each path.
#[derive(Clone, Copy, Debug, PartialEq, Eq)]
pub enum Method {
    Get,
    Post,
}

/// What a request asks for.
#[derive(Clone, Copy, Debug, PartialEq, Eq)]
pub enum Request {
    /// What has been counted.
    Metrics,
    /// Whether clients are accepted.
    Health,
    /// To accept no more clients, and to end within so many seconds.
    Drain(u64),
}

/// Why a request is refused.
#[derive(Clone, Copy, Debug, PartialEq, Eq)]
pub enum Refusal {
    /// It is no request, or its query is none that the path has.
    BadRequest,
    /// Nothing is at its path.
    NotFound,
    /// Its path has this method, and it has another.
    MethodNotAllowed(Method),
    /// Its head has more than 8192 bytes or 64 fields.
    TooLong,
}

/// What is at a path.
#[derive(Clone, Copy)]
enum Resource {
    Metrics,
    Health,
    Drain,
}

/// The seconds of a drain of which the request says nothing.
const DRAIN_SECONDS: u64 = 30;

impl Method {
    fn word(self) -> &'static [u8]
        ensures { result.now ≡ method_word self }
    {
        match self {
            Method::Get => b"GET",
            Method::Post => b"POST",
        }
    }
}

impl Resource {
    fn at(path: &[u8]) -> Option<Resource>
        ensures { result ≡ resource_at path.now }
    {
        if path == b"/metrics".as_slice() {
            Some(Resource::Metrics)
        } else if path == b"/health".as_slice() {
            Some(Resource::Health)
        } else if path == b"/drain".as_slice() {
            Some(Resource::Drain)
        } else {
            None
        }
    }

    fn method(self) -> Method
        ensures { result ≡ method_of self }
    {
        match self {
            Resource::Metrics | Resource::Health => Method::Get,
            Resource::Drain => Method::Post,
        }
    }

    fn request(self, query: &[u8]) -> Result<Request, Refusal>
        ensures { result ≡ request_for self query.now }
    {
        match self {
            Resource::Metrics => Ok(Request::Metrics),
            Resource::Health => Ok(Request::Health),
            Resource::Drain => match seconds(query) {
                Some(seconds) => Ok(Request::Drain(seconds)),
                None => Err(Refusal::BadRequest),
            },
        }
    }
}

fn number(digits: &[u8]) -> u64
    requires { length digits.now < 6 }
    ensures { result ≡ number digits.now }
{
    let mut n = 0;
    for digit in digits {
        n = n * 10 + u64::from(digit.saturating_sub(b'0'));
    }
    n
}

fn all_digits(bytes: &[u8]) -> bool
    ensures { result ≡ list_all is_ascii_digit bytes.now }
{
    bytes.iter().all(|b| b.is_ascii_digit())
}

/// The number of one to five digits.
fn short_number(digits: &[u8]) -> Option<u64>
    ensures { result ≡ short_number digits.now }
{
    if digits.is_empty() || digits.len() > 5 || !all_digits(digits) {
        return None;
    }
    Some(number(digits))
}

/// The seconds that the query of a drain says, if it says any in the right way.
fn seconds(query: &[u8]) -> Option<u64>
    ensures { result ≡ seconds_of query.now }
{
    if query.is_empty() {
        return Some(DRAIN_SECONDS);
    }
    if query.len() < 9 {
        return None;
    }
    if !begins_with(query, b"seconds=") {
        return None;
    }
    short_number(&query[8..])
}

/// The place of the first question mark.
fn question_mark(target: &[u8]) -> Option<usize>
    ensures place { result ≡ position is_question_mark target.now }
    ensures within { IfSome result (λ place. place < length target.now) }
{
    target.iter().position(|b| *b == b'?')
}

fn answer_at(method: &[u8], path: &[u8], query: &[u8]) -> Result<Request, Refusal>
    ensures { result ≡ answer_at method.now path.now query.now }
{
    let Some(resource) = Resource::at(path) else {
        return Err(Refusal::NotFound);
    };
    let allowed = resource.method();
    if method == allowed.word() {
        resource.request(query)
    } else {
        Err(Refusal::MethodNotAllowed(allowed))
    }
}

/// What a method and a target ask for. The path is what comes before the target's first question mark.
pub fn answer(method: &[u8], target: &[u8]) -> Result<Request, Refusal>
    ensures { result ≡ answer method.now target.now }
{
    match question_mark(target) {
        None => answer_at(method, target, b""),
        Some(place) => answer_at(method, &target[..place], &target[place + 1..]),
    }
}
