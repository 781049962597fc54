//! What one line says: a request, a request whose value follows, or a refusal.

ghost use Rattle.std.specs.Prelude.{◌≡◌, ◌≢◌, ◌∷◌, [], IfOk, map};
ghost use Rattle.std.specs.Option.{option_map};
ghost use Rattle.mcv_base.specs.Operation.{op_name};
ghost use Rattle.mcv_text.specs.Line.{adjusting_said, alone_said, cas_said, delete_said, meaning, plain, reading_said, said, storing, storing_said, touch_said};
ghost use Rattle.mcv_text.specs.ParsedLine.{IsSmall, KeysRead, line_value, numbers_said};
ghost use Rattle.mcv_text.specs.Request.{request_value};

use crate::words::{delete_options, line_words, noreply, number32, number64, signed};
use mcv_base::{Ask, Op, Request, is_key_word};
use std::alloc::{AllocError, Global};
use std::sync::Arc;

/// The most bytes of a value.
const VALUE_LIMIT: u32 = 1_048_576;

/// A storing line, before its value.
#[derive(Drop)]
pub struct Header {
    pub op: Op,
    pub keys: Vec<Vec<u8>>,
    pub flags: u32,
    pub exptime: i64,
    pub cas: Option<u64>,
    pub noreply: bool,
}

#[derive(Drop)]
pub enum Meaning {
    Whole(Request),
    /// A value of this many bytes follows.
    Stores(Header, usize),
    Unknown,
    Bad,
    /// A value of this many bytes follows, over the limit.
    TooLarge(usize),
}

/// The keys, where each of the words is one: one growth for each, and one for all.
fn keys_of(alloc: Global, words: &[&[u8]]) -> Result<Option<Vec<Vec<u8>>>, AllocError>
    ensures { IfOk result (λ o. KeysRead (option_map (λ keys. map (λ key. key.items) keys.items) o) (map (λ word. word.now) words.now)) }
{
    let mut keys = Vec::with_capacity(alloc, words.len())?;
    for word in words {
        if !is_key_word(word) {
            return Ok(None);
        }
        keys.push_reserved(Vec::from_slice(alloc, word)?);
    }
    Ok(Some(keys))
}

/// A request without a value.
fn plain_of(
    alloc: Global,
    op: Op,
    words: &[&[u8]],
    exptime: i64,
    delta: u64,
    noreply: bool,
) -> Result<Meaning, AllocError>
    ensures means { IfOk result (λ m. line_value m ≡ plain op (map (λ word. word.now) words.now) exptime delta noreply) }
    ensures fits { IfOk result (λ m. IsSmall m) }
{
    let Some(keys) = keys_of(alloc, words)? else {
        return Ok(Meaning::Bad);
    };
    let body = Arc::new(alloc, Vec::new(alloc))?;
    Ok(Meaning::Whole(Request::Ask(Ask {
        op,
        keys,
        flags: 0,
        exptime,
        body,
        cas: None,
        delta,
        noreply,
    })))
}

/// A request with a value of so many bytes.
fn storing_with(
    alloc: Global,
    op: Op,
    key: &[u8],
    numbers: (u32, i64, u32),
    cas: Option<u64>,
    noreply: bool,
) -> Result<Meaning, AllocError>
    ensures means { IfOk result (λ m. line_value m ≡ storing op key.now numbers.0 numbers.1 numbers.2 cas noreply) }
    ensures fits { IfOk result (λ m. IsSmall m) }
{
    let (flags, exptime, size) = numbers;
    if !is_key_word(key) {
        return Ok(Meaning::Bad);
    }
    if size > VALUE_LIMIT {
        return Ok(Meaning::TooLarge(size as usize));
    }
    let mut keys = Vec::with_capacity(alloc, 1)?;
    keys.push_reserved(Vec::from_slice(alloc, key)?);
    let header = Header {
        op,
        keys,
        flags,
        exptime,
        cas,
        noreply,
    };
    Ok(Meaning::Stores(header, size as usize))
}

/// `<key>+`
fn reading_of(alloc: Global, op: Op, arguments: &[&[u8]]) -> Result<Meaning, AllocError>
    ensures means { IfOk result (λ m. line_value m ≡ reading_said op (map (λ word. word.now) arguments.now)) }
    ensures fits { IfOk result (λ m. IsSmall m) }
{
    if arguments.is_empty() {
        return Ok(Meaning::Bad);
    }
    plain_of(alloc, op, arguments, 0, 0, false)
}

/// `<flags> <exptime> <bytes>`
fn numbers_of(flags: &[u8], exptime: &[u8], size: &[u8]) -> Option<(u32, i64, u32)>
    ensures { result ≡ numbers_said flags.now exptime.now size.now }
{
    let flags = number32(flags)?;
    let exptime = signed(exptime)?;
    let size = number32(size)?;
    Some((flags, exptime, size))
}

/// `<key> <flags> <exptime> <bytes> [noreply]`
fn storing_of(alloc: Global, op: Op, arguments: &[&[u8]]) -> Result<Meaning, AllocError>
    ensures means { IfOk result (λ m. line_value m ≡ storing_said op (map (λ word. word.now) arguments.now)) }
    ensures fits { IfOk result (λ m. IsSmall m) }
{
    let [key, flags, exptime, size, options @ ..] = arguments else {
        return Ok(Meaning::Bad);
    };
    let Some(numbers) = numbers_of(flags, exptime, size) else {
        return Ok(Meaning::Bad);
    };
    let Some(noreply) = noreply(options) else {
        return Ok(Meaning::Bad);
    };
    storing_with(alloc, op, key, numbers, None, noreply)
}

/// `<key> <flags> <exptime> <bytes> <cas> [noreply]`
fn cas_of(alloc: Global, arguments: &[&[u8]]) -> Result<Meaning, AllocError>
    ensures means { IfOk result (λ m. line_value m ≡ cas_said (map (λ word. word.now) arguments.now)) }
    ensures fits { IfOk result (λ m. IsSmall m) }
{
    let [key, flags, exptime, size, cas, options @ ..] = arguments else {
        return Ok(Meaning::Bad);
    };
    let Some(numbers) = numbers_of(flags, exptime, size) else {
        return Ok(Meaning::Bad);
    };
    let Some(cas) = number64(cas) else {
        return Ok(Meaning::Bad);
    };
    let Some(noreply) = noreply(options) else {
        return Ok(Meaning::Bad);
    };
    storing_with(alloc, Op::Cas, key, numbers, Some(cas), noreply)
}

/// `<key> [0] [noreply]`
fn delete_of(alloc: Global, arguments: &[&[u8]]) -> Result<Meaning, AllocError>
    ensures means { IfOk result (λ m. line_value m ≡ delete_said (map (λ word. word.now) arguments.now)) }
    ensures fits { IfOk result (λ m. IsSmall m) }
{
    let [key, options @ ..] = arguments else {
        return Ok(Meaning::Bad);
    };
    let Some(noreply) = delete_options(options) else {
        return Ok(Meaning::Bad);
    };
    plain_of(alloc, Op::Delete, &[*key], 0, 0, noreply)
}

/// `<key> <exptime> [noreply]`
fn touch_of(alloc: Global, arguments: &[&[u8]]) -> Result<Meaning, AllocError>
    ensures means { IfOk result (λ m. line_value m ≡ touch_said (map (λ word. word.now) arguments.now)) }
    ensures fits { IfOk result (λ m. IsSmall m) }
{
    let [key, exptime, options @ ..] = arguments else {
        return Ok(Meaning::Bad);
    };
    let Some(exptime) = signed(exptime) else {
        return Ok(Meaning::Bad);
    };
    let Some(noreply) = noreply(options) else {
        return Ok(Meaning::Bad);
    };
    plain_of(alloc, Op::Touch, &[*key], exptime, 0, noreply)
}

/// `<key> <value> [noreply]`
fn adjusting_of(alloc: Global, op: Op, arguments: &[&[u8]]) -> Result<Meaning, AllocError>
    ensures means { IfOk result (λ m. line_value m ≡ adjusting_said op (map (λ word. word.now) arguments.now)) }
    ensures fits { IfOk result (λ m. IsSmall m) }
{
    let [key, delta, options @ ..] = arguments else {
        return Ok(Meaning::Bad);
    };
    let Some(delta) = number64(delta) else {
        return Ok(Meaning::Bad);
    };
    let Some(noreply) = noreply(options) else {
        return Ok(Meaning::Bad);
    };
    plain_of(alloc, op, &[*key], 0, delta, noreply)
}

/// A request of one word.
fn alone_of(request: Request, arguments: &[&[u8]]) -> Meaning
    ensures means { line_value result ≡ alone_said (request_value request) (map (λ word. word.now) arguments.now) }
    ensures fits { IsSmall result }
{
    match arguments {
        [] => Meaning::Whole(request),
        _ => Meaning::Bad,
    }
}

/// A line that names an operation.
fn operation_of(alloc: Global, op: Op, arguments: &[&[u8]]) -> Result<Meaning, AllocError>
    ensures means { IfOk result (λ m. line_value m ≡ said (op_name op ∷ map (λ word. word.now) arguments.now)) }
    ensures fits { IfOk result (λ m. IsSmall m) }
{
    match op {
        Op::Get | Op::Gets => reading_of(alloc, op, arguments),
        Op::Set | Op::Add | Op::Replace | Op::Append | Op::Prepend => storing_of(
            alloc, op, arguments,
        ),
        Op::Cas => cas_of(alloc, arguments),
        Op::Delete => delete_of(alloc, arguments),
        Op::Touch => touch_of(alloc, arguments),
        Op::Incr | Op::Decr => adjusting_of(alloc, op, arguments),
    }
}

/// A line that names none.
fn other_of(command: &[u8], arguments: &[&[u8]]) -> Meaning
    requires { (op : Op) → op_name op ≢ command.now }
    ensures means { line_value result ≡ said (command.now ∷ map (λ word. word.now) arguments.now) }
    ensures fits { IsSmall result }
{
    if command == b"version".as_slice() {
        alone_of(Request::Version, arguments)
    } else if command == b"quit".as_slice() {
        alone_of(Request::Quit, arguments)
    } else {
        Meaning::Unknown
    }
}

fn said_by(alloc: Global, words: &[&[u8]]) -> Result<Meaning, AllocError>
    ensures means { IfOk result (λ m. line_value m ≡ said (map (λ word. word.now) words.now)) }
    ensures fits { IfOk result (λ m. IsSmall m) }
{
    let Some((command, arguments)) = words.split_first() else {
        return Ok(Meaning::Unknown);
    };
    match Op::named(command) {
        Some(op) => operation_of(alloc, op, arguments),
        None => Ok(other_of(command, arguments)),
    }
}

/// What the line says, without its LF.
pub fn meaning_of(alloc: Global, line: &[u8]) -> Result<Meaning, AllocError>
    ensures means { IfOk result (λ m. line_value m ≡ meaning line.now) }
    ensures fits { IfOk result (λ m. IsSmall m) }
{
    let words = line_words(alloc, line)?;
    said_by(alloc, words.as_slice())
}
