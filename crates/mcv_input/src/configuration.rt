//! The routes that a configuration names.

ghost use Rattle.std.specs.Prelude.{IfSome, IfOk, IfErr};
ghost use Rattle.mcv_config.specs.Config.{Faulty};
ghost use Rattle.mcv_input.specs.Fault.{AreNamedBy, IsInputFault};
ghost use Rattle.mcv_names.specs.Fault.{Refuses};

use crate::device::read_at_most;
use crate::fault::RunFault;
use mcv_config::{ReadFault, SIZE_LIMIT, read_config};
use mcv_route::Routes;
use std::alloc::Global;
use std::io::Read;

/// The most bytes that are read of a configuration: one more than it may have.
const READ_LIMIT: u64 = (SIZE_LIMIT + 1) as u64;

/// The routes that a configuration names, or a fault in it.
pub fn read_routes(alloc: Global, configuration: &[u8]) -> Result<Routes, ReadFault>
    ensures named { IfOk result (AreNamedBy configuration.now) }
    ensures fault { IfErr result (λ fault. Refuses fault (Faulty configuration.now)) }
{
    let config = read_config(alloc, configuration)?;
    Ok(Routes::build(alloc, config)?)
}

/// The routes that the configuration names which is all that the reader has left. No more is read than can matter,
/// so bytes may be left behind one that is too long.
pub fn read_configuration<R: Read>(alloc: Global, reader: &mut R) -> Result<Routes, RunFault>
    ensures named { IfOk result (λ routes. IfSome (R.remaining reader.old) (λ input. AreNamedBy input routes)) }
    ensures fault { IfErr result (λ fault. IfSome (R.remaining reader.old) (λ input. IsInputFault input fault)) }
{
    let input = read_at_most(alloc, reader, READ_LIMIT)?;
    Ok(read_routes(alloc, input.as_slice())?)
}
