//! The path from the bytes read to the bytes written.

ghost use Rattle.std.specs.Prelude.{◌≡◌, ◌≢◌, ℕ, List, IfErr, IfOk, IfSome, IsTrue, OnOk, map};
ghost use Rattle.std.specs.Io.KnownBytes.{Appends};
ghost use Rattle.mcv_blocks.specs.Places.{AreRouteClasses};
ghost use Rattle.mcv_input.specs.Fault.{AreNamedBy};
ghost use Rattle.mcv_input.specs.declared.fault.RunFault.TheVariants.{Device};
ghost use Rattle.mcv_symbolic.specs.CoveredRoutes.{AreCovered};
ghost use Rattle.mcv_mend.specs.Aliases.{aliases_value, route_aliases};
ghost use Rattle.mcv_needs.specs.InMemory.{class_of_need, needs_value};
ghost use Rattle.mcv_mend.specs.Kept.{IsKeptIn};
ghost use Rattle.mcv_mended.specs.Mend.{IsMendOf};
ghost use Rattle.mcv_mend.specs.Mending.{IsMendFault, IsMendedText, IsMending, IsMendingOn, IsNotMended, IsRefusedText, NamesMended};
ghost use Rattle.mcv_mend.specs.declared.fault.MendFault.TheVariants.{Run};

use crate::covered::is_covered;
use crate::drafting::draft;
use crate::fault::{MendFault, Mending};
use crate::kept::is_kept;
use crate::reading::{Reading, are_same_aliases, read_named};
use mcv_config::{ReadFault, SIZE_LIMIT};
use mcv_input::{RunFault, read_at_most, write_text};
use mcv_mended::is_mended;
use mcv_needs::{Need, class_needs};
use std::alloc::{AllocError, Global};
use std::io::{Read, Write};

/// The most bytes that are read of a configuration: one more than it may have.
const READ_LIMIT: u64 = (SIZE_LIMIT + 1) as u64;

/// What became of a configuration, and what is written.
#[derive(Drop)]
pub struct Output {
    pub mending: Mending,
    pub text: Vec<u8>,
}

/// Reads a configuration and writes it with the smallest change to its delete policies that covers it; one that is
/// covered as it is. Where it is at fault, and where no change is found, nothing is written.
pub fn run_mend<R: Read, W: Write>(
    alloc: Global,
    reader: &mut R,
    writer: &mut W,
) -> Result<Mending, MendFault>
    ensures ok { IfOk result (λ mending. (text : List ℕ) × IfSome (R.remaining reader.old) (λ input. IsMendingOn input mending text)
        × Appends (W.contents writer.old) (W.contents writer.new) text) }
    ensures fault { IfErr result (λ fault. IfSome (R.remaining reader.old) (λ input. IsMendFault input fault)) }
    ensures silent { IfErr result (λ fault. fault ≢ Run Device → W.contents writer.new ≡ W.contents writer.old) }
{
    let input = read_at_most(alloc, reader, READ_LIMIT)?;
    let output = mend_text(alloc, input)?;
    write_text(writer, output.text.as_slice())?;
    Ok(output.mending)
}

/// The configuration that a text has, with the smallest change to its delete policies that covers it; a covered one as
/// it is.
pub fn mend_text(alloc: Global, input: Vec<u8>) -> Result<Output, MendFault>
    ensures ok { IfOk result (λ output. IsMendingOn input.items output.mending output.text.items) }
    ensures fault { IfErr result (IsMendFault input.items) }
{
    match read_named(alloc, input.as_slice()) {
        Ok(old) => mend_named(alloc, input, &old),
        Err(fault) => Err(MendFault::Run(RunFault::from(fault))),
    }
}

/// The same of a text that names these routes.
fn mend_named(alloc: Global, input: Vec<u8>, old: &Reading) -> Result<Output, MendFault>
    requires named { AreNamedBy input.items old.now.routes }
    requires aliases { aliases_value old.now.aliases.items ≡ route_aliases old.now.routes }
    ensures ok { IfOk result (λ output. IsMending old.now.routes input.items output.mending output.text.items) }
    ensures fault { IfErr result (IsMendFault input.items) }
{
    let covered = is_covered(alloc, &old.routes)?;
    if covered {
        return Ok(Output {
            mending: Mending::Unchanged,
            text: input,
        });
    }
    let text = mended_text(alloc, input.as_slice(), old)?;
    Ok(Output {
        mending: Mending::Mended,
        text,
    })
}

/// The text of a configuration that isn't covered, mended.
fn mended_text(alloc: Global, input: &[u8], old: &Reading) -> Result<Vec<u8>, MendFault>
    requires lost { AreCovered old.now.routes → ⊥ }
    requires aliases { aliases_value old.now.aliases.items ≡ route_aliases old.now.routes }
    ensures ok { IfOk result (λ text. IsMendedText old.now.routes input.now text.items) }
    ensures fault { IfErr result (IsNotMended input.now) }
{
    let needs = class_needs(alloc, &old.routes)?;
    let text = drafted(alloc, input, needs.as_slice())?;
    confirm(alloc, old, needs.as_slice(), text.as_slice())?;
    Ok(text)
}

/// The text with what each class needs, where it keeps all that was read. Why there is none is either memory, or isn't
/// known.
fn drafted(alloc: Global, input: &[u8], needs: &[Need]) -> Result<Vec<u8>, MendFault>
    ensures kept { IfOk result (λ text. IsKeptIn input.now text.items) }
    ensures fault { IfErr result (IsNotMended input.now) }
{
    match draft(alloc, input, needs) {
        Ok(text) => kept_in(input, text),
        Err(MendFault::Run(_)) => Err(MendFault::Run(RunFault::Memory)),
        Err(_) => Err(MendFault::GaveUp),
    }
}

/// The text, where it keeps all that was read.
fn kept_in(input: &[u8], text: Vec<u8>) -> Result<Vec<u8>, MendFault>
    ensures kept { IfOk result (λ kept. IsKeptIn input.now kept.items) }
    ensures fault { IfErr result (IsNotMended input.now) }
{
    if is_kept(input, text.as_slice()) {
        Ok(text)
    } else {
        Err(MendFault::GaveUp)
    }
}

/// Sees that a text names routes that are covered, and are the old ones mended by these needs.
fn confirm(alloc: Global, old: &Reading, needs: &[Need], text: &[u8]) -> Result<(), MendFault>
    requires aliases { aliases_value old.now.aliases.items ≡ route_aliases old.now.routes }
    requires classes { AreRouteClasses old.now.routes (map class_of_need needs.now) }
    ensures ok { OnOk result (NamesMended old.now.routes (needs_value needs.now) text.now) }
    ensures fault { IfErr result (IsRefusedText text.now) }
{
    let reading = read_again(alloc, text)?;
    let fine = is_right(alloc, old, &reading, needs)?;
    if fine { Ok(()) } else { Err(MendFault::GaveUp) }
}

/// What a drafted text names.
fn read_again(alloc: Global, text: &[u8]) -> Result<Reading, MendFault>
    ensures named { IfOk result (λ reading. AreNamedBy text.now reading.routes) }
    ensures aliases { IfOk result (λ reading. aliases_value reading.aliases.items ≡ route_aliases reading.routes) }
    ensures fault { IfErr result (IsRefusedText text.now) }
{
    match read_named(alloc, text) {
        Ok(reading) => Ok(reading),
        Err(ReadFault::Config(fault)) => Err(MendFault::Limit(fault)),
        Err(ReadFault::Memory) => Err(MendFault::Run(RunFault::Memory)),
    }
}

/// Whether the new routes are covered, and are the old ones mended by these needs.
fn is_right(alloc: Global, old: &Reading, new: &Reading, needs: &[Need]) -> Result<bool, AllocError>
    requires aliases { aliases_value old.now.aliases.items ≡ route_aliases old.now.routes }
    requires also { aliases_value new.now.aliases.items ≡ route_aliases new.now.routes }
    requires classes { AreRouteClasses old.now.routes (map class_of_need needs.now) }
    ensures covered { IfOk result (λ fine. IsTrue fine → AreCovered new.now.routes) }
    ensures mended { IfOk result (λ fine. IsTrue fine → IsMendOf old.now.routes new.now.routes (needs_value needs.now)) }
{
    if !are_same_aliases(new, old) {
        return Ok(false);
    }
    let covered = is_covered(alloc, &new.routes)?;
    if !covered {
        return Ok(false);
    }
    is_mended(alloc, &old.routes, &new.routes, needs)
}
