//! Key words: the routing prefix, the rest and the hashed part.

ghost use Rattle.std.specs.Prelude.{◌≡◌, ◌≤◌, ℕ, List, [], IfOk, OnOk, IfErr, IsTrue, MatchOption, false, true, ⊤, length, take};
ghost use Rattle.std.specs.List.{list_all};
ghost use Rattle.std.specs.Str.{bytes_eq};
ghost use Rattle.std.specs.Cmp.{partial_equiv_from_equiv};
ghost use Rattle.std.specs.Cmp.Lexicographic.{nat_list_eq_equiv};
ghost use Rattle.mcv_base.specs.Key.{IsCut, IsHashedCut, IsKeyFault, IsNamed, IsRest, IsRoutingPrefix, IsUnnamed, IsUnrouted, begins_with, default_prefix, hashed_part, is_key_byte, is_key_word, key_fault_number};

use arrayvec::ArrayVec;
use memchr::{memchr, memmem};
use std::marker::Model;
use thiserror::Error;

/// The most bytes of a key word.
const KEY_LIMIT: usize = 250;

/// The prefix of key words that name none.
const DEFAULT_PREFIX: &[u8] = b"/././";

/// Why a word is no key, in the order in which they are looked for.
#[derive(Clone, Copy, Debug, PartialEq, Eq, Error)]
pub enum KeyFault {
    #[error("empty")]
    Empty = 1,
    #[error("more than 250 bytes")]
    TooLong = 2,
    #[error("a byte that no key has")]
    BadByte = 3,
    #[error("nothing behind the routing prefix")]
    NoRest = 4,
}

impl KeyFault {
    /// The number of the fault, from 1.
    pub fn number(self) -> u8
        ensures { result ≡ key_fault_number self }
    {
        self as u8
    }
}

/// A routing prefix, `/x/y/`, held in place. Clauses see its bytes.
#[derive(Drop)]
pub struct Prefix {
    bytes: ArrayVec<u8, 250>,
}

impl Model for Prefix {
    ghost use Rattle.std.specs.Prelude.{List, ℕ};
    ghost use Rattle.std.specs.Coded.{coded_ℕ, coded_list};

    ghost Value = { List ℕ };

    ghost coded = { coded_list coded_ℕ };

    ghost view = { λ p. p.bytes.items };
}

/// What follows the routing prefix: 1 to 250 key bytes, held in place. Clauses see its bytes.
#[derive(Debug, Drop)]
pub struct Rest {
    word: ArrayVec<u8, 250>,
}

impl Model for Rest {
    ghost use Rattle.std.specs.Prelude.{List, ℕ};
    ghost use Rattle.std.specs.Coded.{coded_ℕ, coded_list};
    ghost use Rattle.mcv_base.specs.Key.{IsRest};

    ghost Value = { List ℕ };

    ghost coded = { coded_list coded_ℕ };

    ghost view = { λ r. r.word.items };

    ghost invariant = { λ r. IsRest r.word.items };
}

impl Prefix {
    /// The prefix of these bytes, at most 250.
    pub fn of(bytes: &[u8]) -> Prefix
        requires { length bytes.now ≤ 250 }
        ensures { result ≡ bytes.now }
    {
        Prefix { bytes: held(bytes) }
    }

    /// `/././`, the prefix of key words that name none.
    pub fn unnamed() -> Prefix
        ensures { result ≡ default_prefix }
    {
        Prefix {
            bytes: held(DEFAULT_PREFIX),
        }
    }

    /// Its bytes.
    pub fn as_bytes(&self) -> &[u8]
        ensures { result.now ≡ self.now }
    {
        self.bytes.as_slice()
    }
}

impl Rest {
    /// The rest of these bytes, if they are 1 to 250 key bytes.
    pub fn of(bytes: &[u8]) -> Option<Rest>
        ensures { MatchOption result (is_key_word bytes.now ≡ false) (λ rest. rest ≡ bytes.now) }
    {
        if is_key_word(bytes) {
            Some(Rest { word: held(bytes) })
        } else {
            None
        }
    }

    /// Its bytes.
    pub fn as_bytes(&self) -> &[u8]
        ensures value { result.now ≡ self.now }
        ensures valid { IsTrue (is_key_word self.now) }
        ensures rest { IsRest self.now }
    {
        self.word.as_slice()
    }

    /// A second value of the same bytes. It takes no memory.
    pub fn copied(&self) -> Rest
        ensures { result ≡ self.now }
    {
        Rest {
            word: held(self.word.as_slice()),
        }
    }
}

impl PartialEq for Rest {
    ghost eq = { bytes_eq };

    ghost laws = { partial_equiv_from_equiv nat_list_eq_equiv };

    fn eq(&self, other: &Rest) -> bool {
        self.word.as_slice() == other.word.as_slice()
    }
}

impl Eq for Rest {
    ghost laws = { nat_list_eq_equiv };
}

fn held(bytes: &[u8]) -> ArrayVec<u8, 250>
    requires { length bytes.now ≤ 250 }
    ensures { result.items ≡ bytes.now }
{
    let mut held = ArrayVec::new();
    match held.try_extend_from_slice(bytes) {
        Ok(()) => held,
        Err(_) => unreachable!(),
    }
}

/// The bytes up to and with the first slash, where something comes before it.
fn name_len(bytes: &[u8]) -> Option<usize>
    ensures named { MatchOption result (IsUnnamed bytes.now) (λ n. IsNamed bytes.now n) }
    ensures within { MatchOption result ⊤ (λ n. n ≤ length bytes.now) }
{
    match memchr(b'/', bytes) {
        None => None,
        Some(0) => None,
        Some(place) => Some(place + 1),
    }
}

/// The number of bytes of the routing prefix, if the word has one.
fn prefix_len(word: &[u8]) -> Option<usize>
    ensures routed { MatchOption result (IsUnrouted word.now) (λ n. IsRoutingPrefix (take n word.now)) }
    ensures within { MatchOption result ⊤ (λ n. n ≤ length word.now) }
{
    let (byte, bytes) = word.split_first()?;
    if *byte != b'/' {
        return None;
    }
    let first = name_len(bytes)?;
    let second = name_len(&bytes[first..])?;
    Some(1 + first + second)
}

fn has_key_bytes(word: &[u8]) -> bool
    ensures { result ≡ list_all is_key_byte word.now }
{
    word.iter().all(|byte| *byte >= 33 && *byte != 127)
}

/// Whether the bytes begin with these.
pub fn begins_with(bytes: &[u8], start: &[u8]) -> bool
    ensures { result ≡ begins_with bytes.now start.now }
{
    bytes.starts_with(start)
}

/// Whether the word is a key word: 1 to 250 bytes, each 33 to 126 or 128 to 255.
pub fn is_key_word(word: &[u8]) -> bool
    ensures { result ≡ is_key_word word.now }
{
    !word.is_empty() && word.len() <= KEY_LIMIT && has_key_bytes(word)
}

/// The bytes of the routing prefix of a key word, and those of its rest. They lie in the word, but for the prefix of a word
/// that names none.
pub fn cut_key(word: &[u8]) -> Result<(&[u8], &[u8]), KeyFault>
    ensures cut { IfOk result (λ key. IsCut word.now key.0.now key.1.now) }
    ensures prefix { IfOk result (λ key. length key.0.now ≤ 250) }
    ensures rest { IfOk result (λ key. is_key_word key.1.now ≡ true) }
    ensures word { OnOk result (is_key_word word.now ≡ true) }
    ensures fault { IfErr result (IsKeyFault word.now) }
{
    if word.is_empty() {
        return Err(KeyFault::Empty);
    }
    if word.len() > KEY_LIMIT {
        return Err(KeyFault::TooLong);
    }
    if !has_key_bytes(word) {
        return Err(KeyFault::BadByte);
    }
    let cut = prefix_len(word).unwrap_or(0);
    if cut == word.len() {
        return Err(KeyFault::NoRest);
    }
    let rest = &word[cut..];
    if cut == 0 {
        Ok((DEFAULT_PREFIX, rest))
    } else {
        Ok((&word[..cut], rest))
    }
}

/// The routing prefix and the rest of a key word. It takes no memory.
pub fn split_key(word: &[u8]) -> Result<(Prefix, Rest), KeyFault>
    ensures cut { IfOk result (λ key. IsCut word.now key.0 key.1) }
    ensures word { OnOk result (is_key_word word.now ≡ true) }
    ensures fault { IfErr result (IsKeyFault word.now) }
{
    let (prefix, rest) = cut_key(word)?;
    match Rest::of(rest) {
        Some(rest) => Ok((Prefix::of(prefix), rest)),
        None => unreachable!(),
    }
}

/// What of a rest is hashed: that before the first `|#|`, or all. It takes no memory.
pub fn hashed_part(rest: &Rest) -> &[u8]
    ensures { result.now ≡ hashed_part rest.now }
{
    part_before(rest.as_bytes())
}

/// Most keys have no bar, and one byte is found sooner than three.
fn part_before(rest: &[u8]) -> &[u8]
    ensures { result.now ≡ hashed_part rest.now }
{
    match memchr(b'|', rest) {
        Some(_) => part_before_mark(rest),
        None => rest,
    }
}

fn part_before_mark(rest: &[u8]) -> &[u8]
    ensures { result.now ≡ hashed_part rest.now }
{
    match memmem::find(rest, b"|#|") {
        Some(place) => &rest[..place],
        None => rest,
    }
}

/// A key word has one routing prefix and one rest, and one that has no rest has no other reading.
pub fn key_words_have_one_reading()
    ensures one { (word prefix rest other more : List ℕ) → IsCut word prefix rest → IsCut word other more → (prefix ≡ other) × (rest ≡ more) }
    ensures no_rest { (word prefix rest : List ℕ) → IsKeyFault word KeyFault.NoRest → IsCut word prefix rest → rest ≡ [] }
{}

/// The hashed part of a rest is a cut of it, and no other part is.
pub fn hashed_part_is_a_cut()
    ensures cut { (rest : List ℕ) → IsHashedCut rest (hashed_part rest) }
    ensures one { (rest part other : List ℕ) → IsHashedCut rest part → IsHashedCut rest other → part ≡ other }
{}
