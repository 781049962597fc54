//! A class of rests: its word, and a member of it.

ghost use Rattle.std.specs.Prelude.{◌≡◌};

use mcv_base::Rest;
use std::marker::Model;

/// All rests of which its word is the longest class word with which they begin. Clauses see its word and its member.
#[derive(Drop)]
pub struct Class {
    word: Vec<u8>,
    member: Option<Rest>,
}

impl Model for Class {
    ghost use Rattle.mcv_classes.specs.Class.{ClassValue};

    ghost Value = { ClassValue };

    ghost view = { λ c. record { word = c.word.items; member = c.member } };
}

impl Class {
    /// The class of a word with its member.
    pub(crate) fn of(word: Vec<u8>, member: Option<Rest>) -> Class
        ensures { result ≡ record { word = word.items; member = member } }
    {
        Class { word, member }
    }

    /// Its word.
    pub fn word(&self) -> &[u8]
        ensures { result.now ≡ self.now.word }
    {
        self.word.as_slice()
    }

    /// A rest of this class, where there is one. It takes no memory.
    pub fn member(&self) -> Option<Rest>
        ensures { result ≡ self.now.member }
    {
        match &self.member {
            Some(member) => Rest::of(member.as_bytes()),
            None => None,
        }
    }
}
