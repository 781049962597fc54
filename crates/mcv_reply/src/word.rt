//! The first words of a server's lines, and which of them may be at a place.
//!
//! Definitions: specs/Word.antt.

ghost use Rattle.std.specs.Prelude.{◌≡◌};
ghost use Rattle.mcv_reply.specs.Word.{answers, has_cas, tail_of, word_text, words};

use mcv_base::Op;

/// The first word of a server's line.
#[derive(Clone, Copy, Default, PartialEq, Eq)]
pub enum Word {
    #[default]
    End,
    Value,
    Stored,
    NotStored,
    Exists,
    NotFound,
    Deleted,
    Touched,
    /// No word: the new number, for incr and decr.
    Count,
    Error,
    ClientError,
    ServerError,
    Version,
}

/// What comes behind a first word.
#[derive(Clone, Copy, PartialEq, Eq)]
pub enum Tail {
    /// Nothing.
    Nothing,
    /// A space and any text, or nothing.
    Text,
    /// The key and numbers of a value.
    Value,
    /// Nothing: the line is a number, and has no word.
    Count,
}

/// The place of a line among what a server says.
#[derive(Clone, Copy, PartialEq, Eq)]
pub enum Row {
    /// The first line of a reply.
    Reply(Op),
    /// The line behind a value.
    AfterValue,
    /// The answer to a probe.
    Probe,
}

impl Word {
    /// Its spelling; of a number, which has many, a least one.
    pub fn text(self) -> &'static [u8]
        ensures { result.now ≡ word_text self }
    {
        match self {
            Word::End => b"END",
            Word::Value => b"VALUE",
            Word::Stored => b"STORED",
            Word::NotStored => b"NOT_STORED",
            Word::Exists => b"EXISTS",
            Word::NotFound => b"NOT_FOUND",
            Word::Deleted => b"DELETED",
            Word::Touched => b"TOUCHED",
            Word::Count => b"0",
            Word::Error => b"ERROR",
            Word::ClientError => b"CLIENT_ERROR",
            Word::ServerError => b"SERVER_ERROR",
            Word::Version => b"VERSION",
        }
    }

    pub fn tail(self) -> Tail
        ensures { result ≡ tail_of self }
    {
        match self {
            Word::Value => Tail::Value,
            Word::Count => Tail::Count,
            Word::ClientError | Word::ServerError | Word::Version => Tail::Text,
            _ => Tail::Nothing,
        }
    }
}

impl Row {
    /// The first words that a line may have there.
    pub fn words(self) -> &'static [Word]
        ensures { result.now ≡ words self }
    {
        match self {
            Row::Reply(op) => answers(op),
            Row::AfterValue => &[Word::End],
            Row::Probe => &[Word::Version],
        }
    }

    /// Whether a value there has a unique number.
    pub fn has_cas(self) -> bool
        ensures { result ≡ has_cas self }
    {
        match self {
            Row::Reply(op) => op.is(Op::Gets),
            Row::AfterValue | Row::Probe => false,
        }
    }
}

fn answers(op: Op) -> &'static [Word]
    ensures { result.now ≡ answers op }
{
    match op {
        Op::Get | Op::Gets => {
            &[
                Word::End,
                Word::Value,
                Word::Error,
                Word::ClientError,
                Word::ServerError,
            ]
        }
        Op::Set | Op::Add | Op::Replace | Op::Append | Op::Prepend => {
            &[
                Word::Stored,
                Word::NotStored,
                Word::Error,
                Word::ClientError,
                Word::ServerError,
            ]
        }
        Op::Cas => &[
            Word::Stored,
            Word::NotStored,
            Word::Exists,
            Word::NotFound,
            Word::Error,
            Word::ClientError,
            Word::ServerError,
        ],
        Op::Delete => {
            &[
                Word::Deleted,
                Word::NotFound,
                Word::Error,
                Word::ClientError,
                Word::ServerError,
            ]
        }
        Op::Touch => {
            &[
                Word::Touched,
                Word::NotFound,
                Word::Error,
                Word::ClientError,
                Word::ServerError,
            ]
        }
        Op::Incr | Op::Decr => {
            &[
                Word::Count,
                Word::NotFound,
                Word::Error,
                Word::ClientError,
                Word::ServerError,
            ]
        }
    }
}
