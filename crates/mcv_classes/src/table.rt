//! The class words of a route in byte order, each linked with the longest shorter one with which it begins.
//!
//! The longest word with which a rest begins is found among the links of the last word that isn't behind the
//! rest: each word with which the rest begins is there, since what lies between such a word and the rest
//! begins with it too.

ghost use Rattle.std.specs.Prelude.{◌≡◌, ℕ, ◌<◌, ◌++◌, ◌∷◌, ◌↔◌, [], true, length, IfOk, OnOk, IsTrue, if◌then◌else◌};
ghost use Rattle.std.specs.List.{AllPairs, Contains};
ghost use Rattle.std.specs.Str.{bytes_eq};
ghost use Rattle.mcv_base.specs.Key.{begins_with};
ghost use Rattle.mcv_classes.specs.Class.{IsBefore, IsClassList, IsClassOf, IsClassWord, IsMember, IsUpTo};
ghost use Rattle.mcv_classes.specs.Words.{class_words};
ghost use Rattle.mcv_route.specs.View.{view};

use crate::class::Class;
use crate::words::push_words;
use mcv_base::{Rest, begins_with};
use mcv_route::Route;
use std::alloc::{AllocError, Global};
use std::marker::Model;

/// A word of a table.
#[derive(Drop)]
struct LinkedWord {
    text: Vec<u8>,
    /// The place of the longest shorter word of the table with which this one begins; of the empty word its own.
    shorter: usize,
}

/// The class words of a route. Clauses see the list of them, in byte order.
#[derive(Drop)]
pub struct ClassTable {
    words: Vec<LinkedWord>,
}

impl Model for ClassTable {
    ghost use Rattle.std.specs.Prelude.{List, ℕ};
    ghost use Rattle.std.specs.Coded.{coded_list, coded_ℕ};
    ghost use Rattle.mcv_classes.specs.Table.{IsLinked, texts_of};

    ghost Value = { List (List ℕ) };

    ghost coded = { coded_list (coded_list coded_ℕ) };

    ghost view = { λ t. texts_of t.words.items };

    ghost invariant = { λ t. IsLinked t.words.items };
}

impl ClassTable {
    ghost use Rattle.mcv_classes.specs.Table.{IsInOrderFrom, IsWordTable, bytes_of, last_of, word_at};

    /// The class words of a route: the empty word, and the policy prefixes of all its selectors.
    pub fn new(alloc: Global, route: &Route) -> Result<ClassTable, AllocError>
        ensures { IfOk result (IsWordTable (class_words (view route.now))) }
    {
        let mut words = Vec::new(alloc);
        push_words(alloc, route, &mut words)?;
        words.sort_unstable();
        ClassTable::linked(alloc, words)
    }

    /// The table of the empty word and of these, which are in order.
    fn linked(alloc: Global, words: Vec<Vec<u8>>) -> Result<ClassTable, AllocError>
        requires { IsInOrderFrom [] (bytes_of words.items) }
        ensures { IfOk result (IsWordTable ([] ∷ bytes_of words.items)) }
    {
        let mut table = ClassTable::empty(alloc)?;
        for word in words {
            table.push(word)?;
        }
        Ok(table)
    }

    /// The table of the empty word alone.
    fn empty(alloc: Global) -> Result<ClassTable, AllocError>
        ensures { IfOk result (λ t. t ≡ [] ∷ []) }
    {
        let mut words = Vec::with_capacity(alloc, 1)?;
        words.push(LinkedWord {
            text: Vec::new(alloc),
            shorter: 0,
        })?;
        Ok(ClassTable { words })
    }

    /// Adds a word that isn't before the last one, unless it is the last one.
    fn push(&mut self, word: Vec<u8>) -> Result<(), AllocError>
        requires { IsUpTo (last_of self.old) word.items }
        ensures added { OnOk result (self.new ≡ (if bytes_eq (last_of self.old) word.items then self.old else self.old ++ word.items ∷ [])) }
        ensures rising { AllPairs IsBefore self.new }
    {
        let last = self.words.len() - 1;
        if self.words[last].text.as_slice() == word.as_slice() {
            return Ok(());
        }
        let shorter = self.longest_up_to(last, word.as_slice());
        self.words.push(LinkedWord {
            text: word,
            shorter,
        })?;
        Ok(())
    }

    /// The place of the longest word with which the bytes begin, where each such word is one with which the word at
    /// `place` begins.
    fn longest_up_to(&self, place: usize, bytes: &[u8]) -> usize
        requires inside { place < length self.now }
        requires before { (k : ℕ) → k < length self.now → begins_with bytes.now (word_at self.now k) ≡ true → begins_with (word_at self.now place) (word_at self.now k) ≡ true }
        ensures inside { result < length self.now }
        ensures begins { begins_with bytes.now (word_at self.now result) ≡ true }
        ensures longest { (k : ℕ) → k < length self.now → begins_with bytes.now (word_at self.now k) ≡ true → begins_with (word_at self.now result) (word_at self.now k) ≡ true }
    {
        let mut place = place;
        while !begins_with(bytes, self.words[place].text.as_slice()) {
            place = self.words[place].shorter;
        }
        place
    }

    /// The longest word with which the bytes begin.
    pub fn longest(&self, bytes: &[u8]) -> &[u8]
        ensures { IsClassWord self.now bytes.now result.now }
    {
        let passed = self
            .words
            .partition_point(|word| word.text.as_slice() <= bytes);
        let place = self.longest_up_to(passed - 1, bytes);
        self.words[place].text.as_slice()
    }

    /// Whether the bytes are a class word.
    pub fn contains(&self, bytes: &[u8]) -> bool
        ensures { IsTrue result ↔ Contains self.now bytes.now }
    {
        self.longest(bytes) == bytes
    }

    /// The class of a rest.
    pub fn class_of(&self, alloc: Global, rest: &Rest) -> Result<Class, AllocError>
        ensures { IfOk result (IsClassOf self.now rest.now) }
    {
        let word = self.longest(rest.as_bytes());
        let member = self.member_of(word);
        Ok(Class::of(Vec::from_slice(alloc, word)?, member))
    }

    /// The classes that have members, in the byte order of their words.
    pub fn classes(&self, alloc: Global) -> Result<Vec<Class>, AllocError>
        ensures { IfOk result (λ cs. IsClassList self.now cs.items) }
    {
        let mut classes = Vec::with_capacity(alloc, self.words.len())?;
        for word in &self.words {
            let text = word.text.as_slice();
            let Some(member) = self.member_of(text) else {
                continue;
            };
            classes.push(Class::of(Vec::from_slice(alloc, text)?, Some(member)))?;
        }
        Ok(classes)
    }

    /// The member of a word's class: the word itself where it is a key word; of the empty word the least key byte
    /// that is no class word.
    pub fn member_of(&self, word: &[u8]) -> Option<Rest>
        ensures { IsMember self.now word.now result }
    {
        if word.is_empty() {
            return self.free_byte();
        }
        let member = Rest::of(word)?;
        prove!(!member.as_bytes().is_empty());
        Some(member)
    }

    /// The least key byte that is no class word.
    fn free_byte(&self) -> Option<Rest>
        ensures { IsMember self.now [] result }
    {
        for number in 0..256u16 {
            let word = [number as u8];
            if self.contains(&word) {
                continue;
            }
            if let Some(member) = Rest::of(&word) {
                prove!(!member.as_bytes().is_empty());
                return Some(member);
            }
        }
        None
    }
}
