//! The path from the bytes read to the bytes written.

ghost use Rattle.std.specs.Prelude.{◌≡◌, ◌≢◌, ◌≤◌, ℕ, List, IfErr, IfOk, IfSome};
ghost use Rattle.std.specs.Io.KnownBytes.{Appends};
ghost use Rattle.serde_json.specs.Data.{Data, depth};
ghost use Rattle.serde_json.specs.Read.{max_depth};
ghost use Rattle.serde_json.specs.View.{view};
ghost use Rattle.mcv_input.specs.declared.fault.RunFault.TheVariants.{Device};
ghost use Rattle.mcv_mend.specs.Mending.{IsMendFault, IsMendingOn};
ghost use Rattle.mcv_mend.specs.declared.fault.MendFault.TheVariants.{Run};
ghost use Rattle.mcv_places.specs.Document.{IsDocument};
ghost use Rattle.mcv_mend_patch.specs.Patching.{HasDocument, IsPatchBetween, IsPatchFrom, IsPatchOn};

use crate::document::document_of;
use mcv_config::SIZE_LIMIT;
use mcv_input::{read_at_most, write_text};
use mcv_mend::{MendFault, Mending, Output, mend_text};
use mcv_patch::{difference, patch_text};
use serde_json::Value;
use std::alloc::{AllocError, Global};
use std::io::{Read, Write};

/// The most bytes that are read of a configuration: one more than it may have.
const READ_LIMIT: u64 = (SIZE_LIMIT + 1) as u64;

/// Reads a configuration and writes the patch that makes of it what `run_mend` writes; of one that is covered the empty
/// patch. Where it is at fault, and where no change is found, nothing is written.
pub fn run_patch<R: Read, W: Write>(
    alloc: Global,
    reader: &mut R,
    writer: &mut W,
) -> Result<Mending, MendFault>
    ensures ok { IfOk result (λ mending. (text : List ℕ) × IfSome (R.remaining reader.old) (λ input. IsPatchOn input mending text)
        × Appends (W.contents writer.old) (W.contents writer.new) text) }
    ensures fault { IfErr result (λ fault. IfSome (R.remaining reader.old) (λ input. IsMendFault input fault)) }
    ensures silent { IfErr result (λ fault. fault ≢ Run Device → W.contents writer.new ≡ W.contents writer.old) }
{
    let input = read_at_most(alloc, reader, READ_LIMIT)?;
    let output = patch_output(alloc, input.as_slice())?;
    write_text(writer, output.text.as_slice())?;
    Ok(output.mending)
}

/// What becomes of an input, and the patch of that.
fn patch_output(alloc: Global, input: &[u8]) -> Result<Output, MendFault>
    ensures ok { IfOk result (λ output. IsPatchOn input.now output.mending output.text.items) }
    ensures fault { IfErr result (IsMendFault input.now) }
{
    let copy = Vec::from_slice(alloc, input)?;
    let output = mend_text(alloc, copy)?;
    let text = patch_of(alloc, input, &output)?;
    Ok(Output {
        mending: output.mending,
        text,
    })
}

/// The patch of what became of an input.
fn patch_of(alloc: Global, input: &[u8], output: &Output) -> Result<Vec<u8>, AllocError>
    requires { IsMendingOn input.now output.now.mending output.now.text.items }
    ensures { IfOk result (λ text. IsPatchOn input.now output.now.mending text.items) }
{
    match output.mending {
        Mending::Unchanged => patch_text(alloc, None),
        Mending::Mended => patch_between(alloc, input, output.text.as_slice()),
    }
}

/// The patch that makes the mended text of the input.
fn patch_between(alloc: Global, input: &[u8], mended: &[u8]) -> Result<Vec<u8>, AllocError>
    requires reads { HasDocument input.now }
    requires mends { HasDocument mended.now }
    ensures { IfOk result (λ text. IsPatchBetween input.now mended.now text.items) }
{
    let old = document_of(alloc, input)?;
    patch_to(alloc, &old, mended)
}

/// The patch that makes a text's value of this one.
fn patch_to(alloc: Global, old: &Value, mended: &[u8]) -> Result<Vec<u8>, AllocError>
    requires shallow { depth (view old.now) ≤ max_depth }
    requires mends { HasDocument mended.now }
    ensures { IfOk result (λ text. (new : Data) × IsDocument mended.now new × IsPatchFrom (view old.now) new text.items) }
{
    let value = document_of(alloc, mended)?;
    patch_from(alloc, old, &value)
}

/// The patch that makes one value of another.
fn patch_from(alloc: Global, old: &Value, new: &Value) -> Result<Vec<u8>, AllocError>
    requires shallow { depth (view old.now) ≤ max_depth }
    requires also { depth (view new.now) ≤ max_depth }
    ensures { IfOk result (λ text. IsPatchFrom (view old.now) (view new.now) text.items) }
{
    let operation = difference(alloc, old, new)?;
    patch_text(alloc, Some(&operation))
}
