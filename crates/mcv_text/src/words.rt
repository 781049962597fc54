//! The words of a line, and what single words read as.

ghost use Rattle.std.specs.Prelude.{◌≡◌, ◌<◌, ◌≤◌, ◌^◌, ℕ, pos, neg_ℤ, IfOk, IfSome, MatchOption, length, map};
ghost use Rattle.std.specs.Char.{digit_value};
ghost use Rattle.std.specs.Str.Lines.{strip_carriage_return};
ghost use Rattle.mcv_text.specs.Words.{IsNumber, delete_options_said, line_words, noreply_said, number32_said, number64_said, number_said, signed_said, words};

use std::alloc::{AllocError, Global};

/// The greatest i64, and the magnitude of the least.
const GREATEST: u64 = 0x7fff_ffff_ffff_ffff;

const LEAST: u64 = 0x8000_0000_0000_0000;

/// The line without a CR at its end.
fn content(line: &[u8]) -> &[u8]
    ensures { result.now ≡ strip_carriage_return line.now }
{
    let length = line.len();
    if length > 0 && line[length - 1] == b'\r' {
        &line[..length - 1]
    } else {
        line
    }
}

fn word_count(line: &[u8]) -> usize
    ensures { result ≡ length (words line.now) }
{
    line.split(|b| *b == b' ')
        .filter(|word| word.len() != 0)
        .count()
}

/// The words, in a vector that grows once.
fn words_of(alloc: Global, line: &[u8]) -> Result<Vec<&[u8]>, AllocError>
    ensures { IfOk result (λ v. map (λ word. word.now) v.items ≡ words line.now) }
{
    let mut words = Vec::with_capacity(alloc, word_count(line))?;
    for word in line.split(|b| *b == b' ').filter(|word| word.len() != 0) {
        words.push_reserved(word);
    }
    Ok(words)
}

/// The words of a line without its LF.
pub fn line_words(alloc: Global, line: &[u8]) -> Result<Vec<&[u8]>, AllocError>
    ensures { IfOk result (λ v. map (λ word. word.now) v.items ≡ line_words line.now) }
{
    words_of(alloc, content(line))
}

fn digit(b: u8) -> Option<u64>
    ensures { MatchOption result (10 ≤ digit_value b) (λ d. (d ≡ digit_value b) × (d < 10)) }
{
    match b {
        b'0'..=b'9' => Some(u64::from(b - b'0')),
        _ => None,
    }
}

/// The number that the word spells, up to a limit.
fn number(word: &[u8], limit: u64) -> Option<u64>
    ensures { MatchOption result ((n : ℕ) → IsNumber word.now n → limit < n) (λ n. IsNumber word.now n × (n ≤ limit)) }
{
    if word.is_empty() {
        return None;
    }
    let mut value = 0u64;
    for b in word {
        let digit = digit(*b)?;
        value = value.checked_mul(10)?.checked_add(digit)?;
    }
    if value > limit { None } else { Some(value) }
}

fn number_of(word: &[u8], limit: u64) -> Option<u64>
    ensures value { result ≡ number_said limit word.now }
    ensures fits { IfSome result (λ n. n ≤ limit) }
{
    number(word, limit)
}

/// A number of 32 bits.
pub fn number32(word: &[u8]) -> Option<u32>
    ensures { result ≡ number32_said word.now }
{
    match number_of(word, 0xffff_ffff) {
        Some(number) => Some(number as u32),
        None => None,
    }
}

/// A number of 64 bits.
pub fn number64(word: &[u8]) -> Option<u64>
    ensures { result ≡ number64_said word.now }
{
    number_of(word, 0xffff_ffff_ffff_ffff)
}

/// Minus this number.
fn negated(number: u64) -> i64
    requires { number ≤ 2 ^ 63 }
    ensures { result ≡ neg_ℤ (pos number) }
{
    if number == 0 {
        0
    } else {
        -((number - 1) as i64) - 1
    }
}

/// A number of 64 bits that may have a minus sign.
pub fn signed(word: &[u8]) -> Option<i64>
    ensures { result ≡ signed_said word.now }
{
    match word.split_first() {
        None => None,
        Some((b'-', digits)) => match number_of(digits, LEAST) {
            None => None,
            Some(number) => Some(negated(number)),
        },
        Some(_) => match number_of(word, GREATEST) {
            None => None,
            Some(number) => Some(number as i64),
        },
    }
}

/// Whether the optional last words say noreply; None where they are others.
pub fn noreply(options: &[&[u8]]) -> Option<bool>
    ensures { result ≡ noreply_said (map (λ word. word.now) options.now) }
{
    match options {
        [] => Some(false),
        [word] => (*word == b"noreply".as_slice()).then_some(true),
        _ => None,
    }
}

/// The same for delete, where a word `0` may come before it.
pub fn delete_options(options: &[&[u8]]) -> Option<bool>
    ensures { result ≡ delete_options_said (map (λ word. word.now) options.now) }
{
    match options.split_first() {
        Some((word, more)) if *word == b"0".as_slice() => noreply(more),
        _ => noreply(options),
    }
}
