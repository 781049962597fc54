//! Places in the tree of a route.

ghost use Rattle.std.specs.Prelude.{◌≡◌, ◌++◌, ◌∷◌, [], IfOk, OnOk};
ghost use Rattle.std.specs.Str.{bytes_eq};
ghost use Rattle.mcv_base.specs.Position.{position_text};

use itoa::Buffer;
use std::alloc::{AllocError, Global};
use std::marker::Model;

/// A place in the tree of a route: the child numbers from the root. Clauses see the list of them.
#[derive(Drop)]
pub struct Position {
    steps: Vec<usize>,
}

impl Model for Position {
    ghost use Rattle.std.specs.Prelude.{List, ℕ};
    ghost use Rattle.std.specs.Coded.{coded_ℕ, coded_list};

    ghost Value = { List ℕ };

    ghost coded = { coded_list coded_ℕ };

    ghost view = { λ p. p.steps.items };
}

impl Position {
    /// The place of the root.
    pub fn root(alloc: Global) -> Self
        ensures { result ≡ [] }
    {
        Position {
            steps: Vec::new(alloc),
        }
    }

    /// The place with these child numbers.
    pub fn at(alloc: Global, steps: &[usize]) -> Result<Self, AllocError>
        ensures { IfOk result (λ p. p ≡ steps.now) }
    {
        Ok(Position {
            steps: Vec::from_slice(alloc, steps)?,
        })
    }

    /// The child numbers from the root.
    pub fn steps(&self) -> &[usize]
        ensures { result.now ≡ self.now }
    {
        self.steps.as_slice()
    }

    /// The place of child `number`.
    pub fn child(&self, alloc: Global, number: usize) -> Result<Position, AllocError>
        ensures { IfOk result (λ p. p ≡ self.now ++ number ∷ []) }
    {
        let mut steps = Vec::with_capacity(alloc, self.steps.len() + 1)?;
        steps.extend_from_slice(self.steps.as_slice())?;
        steps.push(number)?;
        Ok(Position { steps })
    }

    /// A second value of the same place.
    pub fn copy(&self, alloc: Global) -> Result<Position, AllocError>
        ensures { IfOk result (λ p. p ≡ self.now) }
    {
        Position::at(alloc, self.steps.as_slice())
    }

    /// Whether the two are one place.
    pub fn is(&self, other: &Position) -> bool
        ensures { result ≡ bytes_eq self.now other.now }
    {
        self.steps.as_slice() == other.steps.as_slice()
    }

    /// Adds its text: the child numbers joined with dots, `-` for the root. On an error part of it may be there.
    pub fn push_text(&self, text: &mut Vec<u8>) -> Result<(), AllocError>
        ensures { OnOk result (text.new.items ≡ text.old.items ++ position_text self.now) }
    {
        push_steps(text, self.steps.as_slice())
    }
}

#[tactic(auto, using(crate::proofs::Texts::flat_map_step))]
fn push_steps(text: &mut Vec<u8>, steps: &[usize]) -> Result<(), AllocError>
    ensures { OnOk result (text.new.items ≡ text.old.items ++ position_text steps.now) }
{
    let mut buffer = Buffer::new();
    let Some((first, others)) = steps.split_first() else {
        text.extend_from_slice(b"-")?;
        return Ok(());
    };
    text.extend_from_slice(buffer.format(*first).as_bytes())?;
    for child in others {
        text.extend_from_slice(b".")?;
        text.extend_from_slice(buffer.format(*child).as_bytes())?;
    }
    Ok(())
}
