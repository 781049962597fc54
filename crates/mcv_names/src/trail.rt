//! Where in the JSON value the reader is. The text of a path is made only where a fault is.

ghost use Rattle.std.specs.Prelude.{◌≡◌, ◌++◌, ◌+◌, ◌<◌, string_bytes, OnOk, IfOk};
ghost use Rattle.std.specs.List.{flat_map};
ghost use Rattle.mcv_names.specs.Fault.{IsFault, path_text};
ghost use Rattle.mcv_names.specs.Path.{path_of, escaped_byte, hex_digit};

use crate::fault::{ConfigFault, FaultKind, ReadFault};
use std::alloc::{AllocError, Global};

/// The steps from the root to a value, the last one first.
#[derive(Clone, Copy)]
pub enum Trail<'a> {
    Root,
    Key(&'a Trail<'a>, &'a str),
    Item(&'a Trail<'a>, usize),
}

impl Trail<'_> {
    /// The text of the path, which is a dot at the root.
    #[tactic(auto, using(crate::proofs::Faults::dots))]
    pub fn text(&self, alloc: Global) -> Result<String, AllocError>
        ensures { IfOk result (λ s. string_bytes s ≡ path_text (path_of self.now)) }
    {
        let mut text = String::new(alloc);
        push_trail(&mut text, self)?;
        if text.is_empty() {
            text.push('.')?;
        }
        Ok(text)
    }
}

/// The fault of this kind where the trail has led.
pub fn fault_at(alloc: Global, kind: FaultKind, trail: &Trail<'_>) -> ReadFault
    ensures { IsFault kind (path_of trail.now) result }
{
    match trail.text(alloc) {
        Ok(path) => ReadFault::Config(ConfigFault { kind, path }),
        Err(_) => ReadFault::Memory,
    }
}

fn push_trail(text: &mut String, trail: &Trail<'_>) -> Result<(), AllocError>
    ensures { OnOk result (string_bytes text.new ≡ string_bytes text.old ++ path_of trail.now) }
{
    match trail {
        Trail::Root => {}
        Trail::Key(before, key) => {
            push_trail(text, before)?;
            text.push('/')?;
            push_escaped(text, key)?;
        }
        Trail::Item(before, index) => {
            push_trail(text, before)?;
            text.push('/')?;
            text.push_str(index.to_string(*text.allocator())?.as_str())?;
        }
    }
    Ok(())
}

fn push_escaped(text: &mut String, key: &str) -> Result<(), AllocError>
    ensures { OnOk result (string_bytes text.new ≡ string_bytes text.old ++ flat_map escaped_byte key.now) }
{
    for byte in key.as_bytes() {
        if matches!(*byte, b'%' | b'/') || !byte.is_ascii_graphic() {
            text.push('%')?;
            text.push(hex_digit_of(*byte / 16))?;
            text.push(hex_digit_of(*byte % 16))?;
        } else {
            text.push(char::from(*byte))?;
        }
    }
    Ok(())
}

fn hex_digit_of(n: u8) -> char
    requires { n < 16 }
    ensures { result ≡ hex_digit n }
{
    if n < 10 {
        char::from(b'0' + n)
    } else {
        char::from(b'A' - 10 + n)
    }
}
