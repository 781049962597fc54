//! JSON pointers (RFC 6901) of paths.

ghost use Rattle.std.specs.Prelude.{◌≡◌, ◌++◌, IfOk, OnOk, string_bytes};
ghost use Rattle.std.specs.List.{flat_map};
ghost use Rattle.std.specs.Str.{chars};
ghost use Rattle.mcv_patch.specs.Operations.{change_of, path_of, step_of};
ghost use Rattle.mcv_patch.specs.Pointer.{pointer, pointer_char, pointer_step};
ghost use Rattle.mcv_patch.specs.Text.{change_pointer};

use crate::operation::{Operation, Step};
use itoa::Buffer;
use std::alloc::{AllocError, Global};

/// Where an operation's value goes.
pub(crate) fn operation_pointer(
    alloc: Global,
    operation: &Operation<'_>,
) -> Result<String, AllocError>
    ensures { IfOk result (λ text. string_bytes text ≡ change_pointer (change_of operation.now)) }
{
    let mut text = String::new(alloc);
    push_path(&mut text, operation.path.as_slice())?;
    if let Some(key) = operation.added {
        push_step(&mut text, Step::Key(key))?;
    }
    Ok(text)
}

fn push_path(text: &mut String, path: &[Step<'_>]) -> Result<(), AllocError>
    ensures { OnOk result (string_bytes text.new ≡ string_bytes text.old ++ pointer (path_of path.now)) }
{
    for step in path {
        push_step(text, *step)?;
    }
    Ok(())
}

fn push_step(text: &mut String, step: Step<'_>) -> Result<(), AllocError>
    ensures { OnOk result (string_bytes text.new ≡ string_bytes text.old ++ pointer_step (step_of step.entry)) }
{
    text.push_str("/")?;
    match step {
        Step::Key(key) => push_key(text, key),
        Step::Index(number) => {
            let mut buffer = Buffer::new();
            text.push_str(buffer.format(number))
        }
    }
}

fn push_key(text: &mut String, key: &str) -> Result<(), AllocError>
    ensures { OnOk result (string_bytes text.new ≡ string_bytes text.old ++ flat_map pointer_char (chars key.now)) }
{
    for c in key.chars() {
        push_char(text, c)?;
    }
    Ok(())
}

fn push_char(text: &mut String, c: char) -> Result<(), AllocError>
    ensures { OnOk result (string_bytes text.new ≡ string_bytes text.old ++ pointer_char c) }
{
    match c {
        '~' => text.push_str("~0"),
        '/' => text.push_str("~1"),
        _ => text.push(c),
    }
}
