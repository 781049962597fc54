//! Reading of a certificate's text.

ghost use Rattle.std.specs.Prelude.{◌≡◌, ◌≢◌, ◌++◌, ◌<◌, ◌^◌, ℕ, List, [], IfErr, IfOk, MatchOption, MatchResult, OnOk, Some};
ghost use Rattle.mcv_cert.specs.Fault.{IsFaultOfText};
ghost use Rattle.mcv_cert.specs.Fronts.{IsFront};
ghost use Rattle.mcv_cert.specs.Pair.{IsPair, PairValue, pair_of};
ghost use Rattle.mcv_cert.specs.Reading.{Reads, Says, at_end, pairs};
ghost use Rattle.mcv_cert.specs.Text.{first_line, first_text, pair_text};

use crate::certificate::Certificate;
use crate::fault::{CertFault, CertTextFault};
use crate::pair::Pair;
use crate::parse::{parse, window_of};
use crate::write::{push_first, push_pair};
use memchr::memchr;
use std::alloc::{AllocError, Global};

/// The most bytes of a text.
const TEXT_LIMIT: usize = 268_435_456;

/// Buffers that serve all lines: a line as it is printed again, and the numbers of a position.
#[derive(Drop)]
struct Buffers {
    line: Vec<u8>,
    steps: Vec<usize>,
}

/// What the first line of a text says, and what follows it.
#[derive(Clone, Copy)]
struct Head<'a> {
    window: u64,
    body: &'a [u8],
}

/// What is at the front of a text.
#[derive(Drop)]
enum Front<'a> {
    /// The line of a pair, and what follows.
    Line(Pair, &'a [u8]),
    /// The last line, and what follows.
    Last(&'a [u8]),
    Nothing,
}

/// The certificate whose text it is, or the first line at fault: the form of a line before its order.
pub fn read_certificate(alloc: Global, text: &[u8]) -> Result<Certificate, CertFault>
    ensures read { IfOk result (λ c. Says text.now (pairs c.window c.pairs)) }
    ensures faulty { IfErr result (λ fault. IsFaultOfText (Says text.now) fault) }
{
    if text.len() > TEXT_LIMIT {
        return Err(CertFault::Text(CertTextFault::Limit));
    }
    let Some(head) = read_head(alloc, text)? else {
        return Err(CertFault::Text(CertTextFault::Syntax(1)));
    };
    let mut certificate = Certificate::new(alloc, head.window);
    read_body(alloc, head.body, head.window, &mut certificate)?;
    Ok(certificate)
}

/// The first line, where the text begins with one.
fn read_head(alloc: Global, text: &[u8]) -> Result<Option<Head<'_>>, AllocError>
    ensures { IfOk result (λ o. MatchOption o ((w : ℕ) (body : List ℕ) → w < 2 ^ 64 → text.now ≢ first_line w ++ body) (λ h. (h.window < 2 ^ 64) × (text.now ≡ first_line h.window ++ h.body.now))) }
{
    let Some(end) = memchr(b'\n', text) else {
        return Ok(None);
    };
    let line = &text[..end];
    let body = &text[end + 1..];
    let Some(window) = read_window(alloc, line)? else {
        return Ok(None);
    };
    Ok(Some(Head { window, body }))
}

/// The window for which this is the first line of a certificate, without its end.
fn read_window(alloc: Global, line: &[u8]) -> Result<Option<u64>, AllocError>
    ensures { IfOk result (λ o. MatchOption o ((w : ℕ) → w < 2 ^ 64 → line.now ≢ first_text w) (λ w. (w < 2 ^ 64) × (line.now ≡ first_text w))) }
{
    let Some(window) = window_of(line) else {
        return Ok(None);
    };
    let mut again = Vec::new(alloc);
    push_first(&mut again, window)?;
    if again.as_slice() == line {
        Ok(Some(window))
    } else {
        Ok(None)
    }
}

/// Reads what comes behind the first line.
fn read_body(
    alloc: Global,
    body: &[u8],
    window: u64,
    certificate: &mut Certificate,
) -> Result<(), CertFault>
    requires { certificate.old ≡ record { window = window; pairs = [] } }
    ensures window { OnOk result (certificate.new.window ≡ window) }
    ensures read { OnOk result (Reads window body.now (pairs window certificate.new.pairs)) }
    ensures faulty { IfErr result (λ fault. IsFaultOfText (Reads window body.now) fault) }
{
    let mut buffers = Buffers {
        line: Vec::new(alloc),
        steps: Vec::new(alloc),
    };
    let mut rest = body;
    loop {
        match read_front(alloc, rest, window, &mut buffers)? {
            Front::Line(pair, later) => {
                if !certificate.takes(&pair) {
                    return Err(CertFault::Text(CertTextFault::Order(certificate.len() + 2)));
                }
                certificate.push(pair)?;
                rest = later;
            }
            Front::Last(later) => return ended(certificate, later),
            Front::Nothing => return Err(CertFault::Text(CertTextFault::Syntax(
                certificate.len() + 2,
            ))),
        }
    }
}

/// Nothing may come behind the last line.
fn ended(certificate: &Certificate, behind: &[u8]) -> Result<(), CertFault>
    ensures { let c = certificate.now in MatchResult result (λ _. at_end c.window c.pairs behind.now ≡ pairs c.window c.pairs) (λ fault. IsFaultOfText (λ r. at_end c.window c.pairs behind.now ≡ r) fault) }
{
    if behind.is_empty() {
        Ok(())
    } else {
        Err(CertFault::Text(CertTextFault::Syntax(certificate.len() + 3)))
    }
}

/// What is at the front of a text.
fn read_front<'a>(
    alloc: Global,
    text: &'a [u8],
    window: u64,
    buffers: &mut Buffers,
) -> Result<Front<'a>, AllocError>
    ensures { IfOk result (λ f. IsFront window text.now f) }
{
    let Some(end) = memchr(b'\n', text) else {
        return Ok(Front::Nothing);
    };
    let line = &text[..end];
    let later = &text[end + 1..];
    if line == b"end".as_slice() {
        return Ok(Front::Last(later));
    }
    let Some(pair) = read_pair(alloc, line, window, buffers)? else {
        return Ok(Front::Nothing);
    };
    Ok(Front::Line(pair, later))
}

/// The pair whose text it is.
fn read_pair(
    alloc: Global,
    line: &[u8],
    window: u64,
    buffers: &mut Buffers,
) -> Result<Option<Pair>, AllocError>
    ensures { IfOk result (λ o. MatchOption o ((p : PairValue) → IsPair window p → line.now ≢ pair_text window p) (λ x. IsPair window (pair_of x) × (line.now ≡ pair_text window (pair_of x)))) }
{
    let Some(pair) = parse(alloc, line, window, &mut buffers.steps)? else {
        return Ok(None);
    };
    buffers.line.clear();
    push_pair(&mut buffers.line, window, &pair)?;
    if buffers.line.as_slice() == line {
        Ok(Some(pair))
    } else {
        Ok(None)
    }
}
