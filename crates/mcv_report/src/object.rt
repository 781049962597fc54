//! Objects of a report, made member by member.

ghost use Rattle.std.specs.Prelude.{◌≡◌, IfOk};
ghost use Rattle.serde_json.specs.Data.{no_members, object, put as with_member};
ghost use Rattle.serde_json.specs.View.{view};
ghost use Rattle.mcv_base.specs.Position.{position_text};
ghost use Rattle.mcv_cert.specs.Escape.{escaped};
ghost use Rattle.mcv_report.specs.Json.{number_from, number_or_null, text_from};
ghost use Rattle.mcv_report.specs.Object.{members_in};

use crate::text::{escaped_text, number_or_null, position_text, text_of};
use mcv_base::Position;
use serde_json::{Map, Value, put};
use std::alloc::{AllocError, Global};

/// An object that is being made: it has the members so far, in the byte order of their keys.
#[derive(Drop)]
pub(crate) struct Object {
    alloc: Global,
    members: Map<String, Value>,
}

impl Object {
    pub(crate) fn new(alloc: Global) -> Self
        ensures { members_in result ≡ no_members }
    {
        Object {
            alloc,
            members: Map::new(alloc),
        }
    }

    /// With a member more.
    pub(crate) fn with(self, key: &str, value: Value) -> Result<Self, AllocError>
        ensures { IfOk result (λ o. members_in o ≡ with_member key.now (view value) (members_in self)) }
    {
        let Object { alloc, mut members } = self;
        put(&mut members, alloc, key, value)?;
        Ok(Object { alloc, members })
    }

    /// With bytes as a text.
    pub(crate) fn text(self, key: &str, bytes: &[u8]) -> Result<Self, AllocError>
        ensures { IfOk result (λ o. members_in o ≡ with_member key.now (text_from bytes.now) (members_in self)) }
    {
        let value = text_of(self.alloc, bytes)?;
        self.with(key, value)
    }

    /// With a word, escaped.
    pub(crate) fn word(self, key: &str, word: &[u8]) -> Result<Self, AllocError>
        ensures { IfOk result (λ o. members_in o ≡ with_member key.now (text_from (escaped word.now)) (members_in self)) }
    {
        let value = escaped_text(self.alloc, word)?;
        self.with(key, value)
    }

    /// With a position.
    pub(crate) fn position(self, key: &str, position: &Position) -> Result<Self, AllocError>
        ensures { IfOk result (λ o. members_in o ≡ with_member key.now (text_from (position_text position.now)) (members_in self)) }
    {
        let value = position_text(self.alloc, position)?;
        self.with(key, value)
    }

    /// With a number.
    pub(crate) fn number(self, key: &str, number: usize) -> Result<Self, AllocError>
        ensures { IfOk result (λ o. members_in o ≡ with_member key.now (number_from number) (members_in self)) }
    {
        self.with(key, Value::from(number))
    }

    /// With a number, or null.
    pub(crate) fn number_or_null(self, key: &str, number: Option<usize>) -> Result<Self, AllocError>
        ensures { IfOk result (λ o. members_in o ≡ with_member key.now (number_or_null number) (members_in self)) }
    {
        self.with(key, number_or_null(number))
    }

    /// The object, with the members that it has.
    pub(crate) fn value(self) -> Value
        ensures { view result ≡ object (members_in self) }
    {
        let Object { alloc: _, members } = self;
        Value::Object(members)
    }
}
