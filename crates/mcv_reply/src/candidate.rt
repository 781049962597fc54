//! A line that has come in part, taken for one of a given first word.
//!
//! Each byte is looked at once by each candidate, which says what may still follow (specs/Candidate.antt), and how
//! many bytes the line may have beside those that it must have.

ghost use Rattle.std.specs.Prelude.{◌≡◌, ◌≢◌, ◌∷◌, [], ◌≤◌, ◌<◌, ◌+◌, ◌*◌, ◌-◌, ◌==◌, List, ℕ, length, Bool, All, MatchOption, Some, None, true, false, if◌then◌else◌};
ghost use Rattle.mcv_reply.specs.Candidate.{Ends, HasName, HasNumber, IsDigitOf, IsValid, AdvancesAt, AdvancesBehindName, AdvancesBehindNumber, Reads, is_clean, limit_of, name_text, needed, new_candidate, start_of};

use crate::word::{Tail, Word};

/// The bytes that a line may have before its LF.
pub const LINE_LIMIT: usize = 2048;

/// The numbers of a value's line: 32 bits, at most 1,048,576, and 64 bits; and the number that a line is, of 64 bits.
#[derive(Clone, Copy, Default, PartialEq, Eq)]
pub struct Head {
    pub flags: u64,
    pub size: u64,
    pub cas: u64,
    pub count: u64,
}

/// A word of a line that is known beforehand.
#[derive(Clone, Copy, PartialEq, Eq)]
pub enum Name {
    First,
    Key,
}

/// A number of a line.
#[derive(Clone, Copy, PartialEq, Eq)]
pub enum Number {
    Flags,
    Size,
    Cas,
    /// The number that the line is.
    Count,
}

/// The part of a line that has been reached.
#[derive(Clone, Copy, Default, PartialEq, Eq)]
pub enum LinePart {
    /// In the spaces before a word.
    BeforeName(Name),
    /// So many bytes of the word have come.
    InName(Name, usize),
    BeforeNumber(Number),
    /// Digits of the number have come, with this value.
    InNumber(Number, u64),
    /// Behind the words.
    #[default]
    Blank,
    /// Behind a CR that ends the line.
    Return,
    /// In a free text.
    Text,
}

/// A line that has come in part, taken for one of this first word.
#[derive(Clone, Copy, Default, PartialEq, Eq)]
pub struct Candidate {
    pub first: Word,
    pub part: LinePart,
    /// The numbers that have come.
    pub head: Head,
    /// How many bytes the line may have beside those that it must have.
    pub spare: usize,
}

/// A candidate one byte on, and whether the line could have done without that byte.
#[derive(Clone, Copy, PartialEq, Eq)]
struct Advance {
    next: Candidate,
    free: bool,
}

/// The bytes of a word that is known beforehand.
fn name_bytes<'a>(name: Name, first: Word, key: &'a [u8]) -> &'a [u8]
    ensures { result.now ≡ name_text name first key.now }
{
    match name {
        Name::First => first.text(),
        Name::Key => key,
    }
}

impl Number {
    fn limit(self) -> u64
        ensures { result ≡ limit_of self }
    {
        match self {
            Number::Flags => 4_294_967_295,
            Number::Size => 1_048_576,
            Number::Cas | Number::Count => 18_446_744_073_709_551_615,
        }
    }
}

/// The value of a digit.
pub fn digit(byte: u8) -> Option<u64>
    ensures { IsDigitOf byte result }
{
    if byte >= b'0' && byte <= b'9' {
        Some((byte - b'0') as u64)
    } else {
        None
    }
}

/// A byte where a space must be.
fn separated(candidate: Candidate, part: LinePart, byte: u8) -> Option<Advance>
    ensures { result ≡ (if byte == 32 then Some (record { next = record candidate { part = part }; free = false }) else None) }
{
    if byte == b' ' {
        Some(Advance {
            next: Candidate { part, ..candidate },
            free: false,
        })
    } else {
        None
    }
}

/// A byte where the line may end: behind a space it goes on in this part.
fn closing(candidate: Candidate, part: LinePart, byte: u8) -> Option<Advance>
    ensures { result ≡ (if byte == 32 then Some (record { next = record candidate { part = part }; free = true }) else (if byte == 13 then Some (record { next = record candidate { part = LinePart.Return }; free = true }) else None)) }
{
    if byte == b' ' {
        Some(Advance {
            next: Candidate { part, ..candidate },
            free: true,
        })
    } else if byte == b'\r' {
        Some(Advance {
            next: Candidate {
                part: LinePart::Return,
                ..candidate
            },
            free: true,
        })
    } else {
        None
    }
}

/// A byte behind a word that is known.
fn behind_name(cas: bool, key: &[u8], candidate: Candidate, name: Name, byte: u8) -> Option<Advance>
    requires { HasName candidate.first name }
    ensures { AdvancesBehindName cas key.now candidate name byte result }
{
    match name {
        Name::First => match candidate.first.tail() {
            Tail::Nothing => closing(candidate, LinePart::Blank, byte),
            Tail::Text => closing(candidate, LinePart::Text, byte),
            Tail::Value => separated(candidate, LinePart::BeforeName(Name::Key), byte),
            Tail::Count => unreachable!(),
        },
        Name::Key => separated(candidate, LinePart::BeforeNumber(Number::Flags), byte),
    }
}

/// A byte of a word that is known, or behind it.
fn in_name(
    cas: bool,
    key: &[u8],
    candidate: Candidate,
    name: Name,
    at: usize,
    byte: u8,
) -> Option<Advance>
    requires { HasName candidate.first name }
    ensures { AdvancesAt cas key.now candidate (LinePart.InName name at) byte result }
{
    let text = name_bytes(name, candidate.first, key);
    if at >= text.len() {
        return behind_name(cas, key, candidate, name, byte);
    }
    if text[at] != byte {
        return None;
    }
    Some(Advance {
        next: Candidate {
            part: LinePart::InName(name, at + 1),
            ..candidate
        },
        free: false,
    })
}

/// A byte behind a number, which has this value.
fn behind_number(
    cas: bool,
    key: &[u8],
    candidate: Candidate,
    number: Number,
    value: u64,
    byte: u8,
) -> Option<Advance>
    requires has { HasNumber candidate.first cas number }
    requires within { value ≤ limit_of number }
    ensures { AdvancesBehindNumber cas key.now candidate number value byte result }
{
    match number {
        Number::Flags => {
            let head = Head {
                flags: value,
                ..candidate.head
            };
            separated(
                Candidate { head, ..candidate },
                LinePart::BeforeNumber(Number::Size),
                byte,
            )
        }
        Number::Size => {
            let head = Head {
                size: value,
                ..candidate.head
            };
            let read = Candidate { head, ..candidate };
            if cas {
                separated(read, LinePart::BeforeNumber(Number::Cas), byte)
            } else {
                closing(read, LinePart::Blank, byte)
            }
        }
        Number::Cas => {
            let head = Head {
                cas: value,
                ..candidate.head
            };
            closing(Candidate { head, ..candidate }, LinePart::Blank, byte)
        }
        Number::Count => {
            let head = Head {
                count: value,
                ..candidate.head
            };
            closing(Candidate { head, ..candidate }, LinePart::Blank, byte)
        }
    }
}

/// The value with one more digit, if it is within the limit.
pub fn with_digit(value: u64, digit: u64, limit: u64) -> Option<u64>
    requires { digit ≤ 9 }
    ensures { MatchOption result (limit < 10 * value + digit) (λ v. (v ≡ 10 * value + digit) × (v ≤ limit)) }
{
    let next = value.checked_mul(10)?.checked_add(digit)?;
    if next <= limit { Some(next) } else { None }
}

/// A byte of a number, or behind it.
fn in_number(
    cas: bool,
    key: &[u8],
    candidate: Candidate,
    number: Number,
    value: u64,
    byte: u8,
) -> Option<Advance>
    requires has { HasNumber candidate.first cas number }
    requires within { value ≤ limit_of number }
    ensures { AdvancesAt cas key.now candidate (LinePart.InNumber number value) byte result }
{
    match digit(byte) {
        Some(digit) => {
            let value = with_digit(value, digit, number.limit())?;
            Some(Advance {
                next: Candidate {
                    part: LinePart::InNumber(number, value),
                    ..candidate
                },
                free: true,
            })
        }
        None => behind_number(cas, key, candidate, number, value, byte),
    }
}

/// A byte in the spaces before a number, or its first digit.
fn before_number(
    cas: bool,
    key: &[u8],
    candidate: Candidate,
    number: Number,
    byte: u8,
) -> Option<Advance>
    requires { HasNumber candidate.first cas number }
    ensures { AdvancesAt cas key.now candidate (LinePart.BeforeNumber number) byte result }
{
    if byte == b' ' {
        return Some(Advance {
            next: Candidate {
                part: LinePart::BeforeNumber(number),
                ..candidate
            },
            free: true,
        });
    }
    let value = digit(byte)?;
    Some(Advance {
        next: Candidate {
            part: LinePart::InNumber(number, value),
            ..candidate
        },
        free: false,
    })
}

/// A byte in the spaces before a word that is known, or its first byte.
fn before_name(cas: bool, key: &[u8], candidate: Candidate, name: Name, byte: u8) -> Option<Advance>
    requires clean { is_clean key.now ≡ true }
    requires has { HasName candidate.first name }
    ensures { AdvancesAt cas key.now candidate (LinePart.BeforeName name) byte result }
{
    if byte == b' ' {
        return Some(Advance {
            next: Candidate {
                part: LinePart::BeforeName(name),
                ..candidate
            },
            free: true,
        });
    }
    in_name(cas, key, candidate, name, 0, byte)
}

/// A byte in the candidate's part of the line.
fn moved(cas: bool, key: &[u8], candidate: Candidate, byte: u8) -> Option<Advance>
    requires clean { is_clean key.now ≡ true }
    requires valid { IsValid cas candidate }
    ensures { AdvancesAt cas key.now candidate candidate.part byte result }
{
    match candidate.part {
        LinePart::BeforeName(name) => before_name(cas, key, candidate, name, byte),
        LinePart::InName(name, at) => in_name(cas, key, candidate, name, at, byte),
        LinePart::BeforeNumber(number) => before_number(cas, key, candidate, number, byte),
        LinePart::InNumber(number, value) => in_number(cas, key, candidate, number, value, byte),
        LinePart::Blank => closing(candidate, LinePart::Blank, byte),
        LinePart::Return => None,
        LinePart::Text => Some(Advance {
            next: Candidate {
                part: LinePart::Text,
                ..candidate
            },
            free: true,
        }),
    }
}

/// The candidate behind a byte of the line, if the line may go on so.
fn step(cas: bool, key: &[u8], candidate: Candidate, byte: u8) -> Option<Candidate>
    requires clean { is_clean key.now ≡ true }
    requires valid { IsValid cas candidate }
    requires no_end { byte ≢ 10 }
    ensures { Reads cas key.now candidate (byte ∷ []) result }
{
    let Advance { next, free } = moved(cas, key, candidate, byte)?;
    if !free {
        return Some(next);
    }
    let spare = next.spare.checked_sub(1)?;
    Some(Candidate { spare, ..next })
}

/// Where a line begins.
fn start_of(tail: Tail) -> LinePart
    ensures { result ≡ start_of tail }
{
    match tail {
        Tail::Nothing | Tail::Text | Tail::Value => LinePart::BeforeName(Name::First),
        Tail::Count => LinePart::BeforeNumber(Number::Count),
    }
}

impl Candidate {
    /// The bytes that a line of this first word must have.
    fn fewest(cas: bool, key: &[u8], first: Word) -> usize
        requires { length key.now ≤ 250 }
        ensures { result ≡ needed first cas key.now (LinePart.BeforeName Name.First) }
    {
        let behind = match first.tail() {
            Tail::Nothing | Tail::Text | Tail::Count => 0,
            Tail::Value => 1 + key.len() + 4 + if cas { 2 } else { 0 },
        };
        first.text().len() + behind
    }

    /// A line of this first word, of which nothing has come.
    pub fn new(cas: bool, key: &[u8], first: Word) -> Candidate
        requires { length key.now ≤ 250 }
        ensures { result ≡ new_candidate cas key.now first }
    {
        Candidate {
            first,
            part: start_of(first.tail()),
            head: Head {
                flags: 0,
                size: 0,
                cas: 0,
                count: 0,
            },
            spare: LINE_LIMIT - Candidate::fewest(cas, key, first),
        }
    }

    /// The candidate behind these bytes of the line, if the line may go on so.
    pub fn read(self, cas: bool, key: &[u8], bytes: &[u8]) -> Option<Candidate>
        requires clean { is_clean key.now ≡ true }
        requires valid { IsValid cas self }
        requires no_end { All (λ b. b ≢ 10) bytes.now }
        ensures { Reads cas key.now self bytes.now result }
    {
        let mut candidate = self;
        for byte in bytes {
            candidate = step(cas, key, candidate, *byte)?;
        }
        Some(candidate)
    }

    /// The numbers of the line, if it may end here.
    pub fn end(self, cas: bool) -> Option<Head>
        requires { IsValid cas self }
        ensures { (key : List ℕ) → is_clean key ≡ true → Ends cas key self result }
    {
        match self.part {
            LinePart::BeforeName(_) | LinePart::BeforeNumber(_) => None,
            LinePart::InName(name, at) => self.end_of_name(name, at),
            LinePart::InNumber(number, value) => self.end_of_number(cas, number, value),
            LinePart::Blank | LinePart::Return | LinePart::Text => Some(self.head),
        }
    }

    fn end_of_name(self, name: Name, at: usize) -> Option<Head>
        requires { self.part ≡ LinePart.InName name at }
        ensures { (has : Bool) (key : List ℕ) → Ends has key self result }
    {
        match name {
            Name::First => self.end_behind(at),
            Name::Key => None,
        }
    }

    fn end_of_number(self, cas: bool, number: Number, value: u64) -> Option<Head>
        requires valid { IsValid cas self }
        requires part { self.part ≡ LinePart.InNumber number value }
        ensures { (key : List ℕ) → Ends cas key self result }
    {
        match number {
            Number::Flags => None,
            Number::Size => if cas {
                None
            } else {
                Some(Head {
                    size: value,
                    ..self.head
                })
            },
            Number::Cas => Some(Head {
                cas: value,
                ..self.head
            }),
            Number::Count => Some(Head {
                count: value,
                ..self.head
            }),
        }
    }

    /// The numbers, if the line may end where so many bytes of its first word have come.
    fn end_behind(self, at: usize) -> Option<Head>
        requires { self.part ≡ LinePart.InName Name.First at }
        ensures { (has : Bool) (key : List ℕ) → Ends has key self result }
    {
        if at < self.first.text().len() {
            return None;
        }
        match self.first.tail() {
            Tail::Nothing | Tail::Text | Tail::Count => Some(self.head),
            Tail::Value => None,
        }
    }
}
