//! The lines that a proxy prints.

ghost use Rattle.std.specs.Prelude.{◌≡◌, IfOk, OnOk};
ghost use Rattle.std.specs.Io.KnownBytes.{Appends};
ghost use Rattle.mcv_net.specs.Lines.{closed_line, listening_line};

use mcv_base::push_number;
use mcv_hub::Report;
use std::alloc::{AllocError, Global};
use std::io;
use std::io::Write;

/// `mcv listening <address> pending <n>`
pub(crate) fn listening_line(
    alloc: Global,
    address: &str,
    pending: usize,
) -> Result<Vec<u8>, AllocError>
    ensures { IfOk result (λ line. line.items ≡ listening_line address.now pending) }
{
    let mut line = Vec::new(alloc);
    line.extend_from_slice(b"mcv listening ")?;
    line.extend_from_slice(address.as_bytes())?;
    line.extend_from_slice(b" pending ")?;
    push_number(&mut line, pending)?;
    line.push(b'\n')?;
    Ok(line)
}

/// `mcv closed calls <n>`, where n is the number of calls begun.
pub(crate) fn closed_line(alloc: Global, report: Report) -> Result<Vec<u8>, AllocError>
    ensures { IfOk result (λ line. line.items ≡ closed_line report.begun) }
{
    let mut line = Vec::new(alloc);
    line.extend_from_slice(b"mcv closed calls ")?;
    push_number(&mut line, report.begun as usize)?;
    line.push(b'\n')?;
    Ok(line)
}

/// Writes a line, so that it is seen at once.
pub(crate) fn print_line<W: Write>(out: &mut W, line: &[u8]) -> io::Result<()>
    ensures { OnOk result (Appends (W.contents out.old) (W.contents out.new) line.now) }
{
    out.write_all(line)?;
    out.flush()
}
