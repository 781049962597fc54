//! What is read of an input.

ghost use Rattle.std.specs.Prelude.{◌≡◌, IfSome, IfOk, IfErr, take};
ghost use Rattle.mcv_input.specs.Fault.{IsOutside};
ghost use Rattle.mcv_legs.specs.Limits.{input_limit};

use mcv_config::SIZE_LIMIT;
use mcv_input::{RunFault, read_at_most};
use std::alloc::Global;
use std::io::Read;

/// The most bytes of a request line: the longest name, a space, the longest key word and LF.
const LINE_LIMIT: usize = 259;

/// The most bytes that are read: a request line, and a configuration of one byte more than one may have.
const INPUT_LIMIT: u64 = (LINE_LIMIT + SIZE_LIMIT + 1) as u64;

/// The first bytes that the reader has left, as many as can matter.
pub fn read_input<R: Read>(alloc: Global, reader: &mut R) -> Result<Vec<u8>, RunFault>
    ensures read { IfOk result (λ input. IfSome (R.remaining reader.old) (λ bytes. input.items ≡ take input_limit bytes)) }
    ensures fault { IfErr result IsOutside }
{
    read_at_most(alloc, reader, INPUT_LIMIT)
}
