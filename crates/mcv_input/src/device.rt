//! What is read from a reader, and how a text is written.

ghost use Rattle.std.specs.Prelude.{◌≡◌, ◌≢◌, IfSome, IfOk, OnOk, IfErr, take};
ghost use Rattle.std.specs.Io.KnownBytes.{Appends};
ghost use Rattle.std.specs.IoError.{error_kind};
ghost use Rattle.mcv_input.specs.Fault.{IsOutside};

use crate::fault::RunFault;
use std::alloc::Global;
use std::io;
use std::io::{ErrorKind, Read, Write};

/// Out of memory is reported as such, and all else as a failure of the device.
fn device_fault(error: &io::Error) -> RunFault
    ensures memory { error_kind error.now ≡ ErrorKind.OutOfMemory → result ≡ RunFault.Memory }
    ensures device { error_kind error.now ≢ ErrorKind.OutOfMemory → result ≡ RunFault.Device }
    ensures outside { IsOutside result }
{
    match error.kind() {
        ErrorKind::OutOfMemory => RunFault::Memory,
        _ => RunFault::Device,
    }
}

/// The first bytes that the reader has left, as many as the limit says; all of them where there are no more.
pub fn read_at_most<R: Read>(alloc: Global, reader: &mut R, limit: u64) -> Result<Vec<u8>, RunFault>
    ensures read { IfOk result (λ input. IfSome (R.remaining reader.old) (λ bytes. input.items ≡ take limit bytes)) }
    ensures fault { IfErr result IsOutside }
{
    let mut input = Vec::new(alloc);
    let mut limited = reader.take(limit);
    match limited.read_to_end(&mut input) {
        Ok(_) => Ok(input),
        Err(error) => Err(device_fault(&error)),
    }
}

/// Writes the whole text. Where the writer fails, part of it may be written.
pub fn write_text<W: Write>(writer: &mut W, text: &[u8]) -> Result<(), RunFault>
    ensures written { OnOk result (Appends (W.contents writer.old) (W.contents writer.new) text.now) }
    ensures fault { IfErr result (λ fault. fault ≡ RunFault.Device) }
{
    match writer.write_all(text) {
        Ok(()) => Ok(()),
        Err(_) => Err(RunFault::Device),
    }
}
